//! The laws of a desk, as functions that do nothing when they run.

ghost use Rattle.receipt_desk.specs.Audited.{CleanAuditsTell};
ghost use Rattle.receipt_desk.specs.Laws.{FittingFollow, GapsAreNoticed, OnePlace, OneVerdict, OtherMacsAreNoticed, TokensPass};
ghost use Rattle.receipt_desk.specs.Lines.{OneDeskLine};
ghost use Rattle.receipt_desk.specs.OfCards.{DesksTakeThese, ReceiptsFit, ReceiptsOfRunsFit};

/// A data field has at most one verdict.
pub fn one_verdict()
    ensures { OneVerdict }
{}

/// What a card answers to a command that a domain confirms fits at a desk with the domain's receipt key and number. A desk takes such
/// a key, and the card's unique data.
pub fn receipts_fit()
    ensures fit { ReceiptsFit }
    ensures taken { DesksTakeThese }
{}

/// All receipts of a domain fit in the order of a run, and the desk comes to the domain's number after it.
pub fn receipts_of_a_run_fit()
    ensures { ReceiptsOfRunsFit }
{}

/// A list of receipts does not fit throughout where one is missing before another, comes twice, is out of order, or is of another card.
/// What the MAC adds holds as far as the MACs differ. That the last receipts are missing is not noticed.
pub fn a_wrong_list_is_noticed()
    ensures follow { FittingFollow }
    ensures place { OnePlace }
    ensures gaps { GapsAreNoticed }
    ensures mac { OtherMacsAreNoticed }
{}

/// A token that a desk signs under the key of a command's verifier is refused by none of the rules on tokens.
pub fn tokens_pass()
    ensures { TokensPass }
{}

/// Where an audit does not differ, the receipts of its lines are all there, in order, and are what the desk's key makes.
pub fn clean_audits_tell()
    ensures { CleanAuditsTell }
{}

/// A text says at most one line.
pub fn one_desk_line()
    ensures { OneDeskLine }
{}
