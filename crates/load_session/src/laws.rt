//! The laws of load sessions beside other commands and of load pages, as functions that do nothing when they run.

ghost use Rattle.load_session.specs.Laws.{PagesStayWhole, ReadyStays, SessionStays, TablesSayTheSame};

/// A block may come as before where no Executable Load File took a page of the session.
pub fn ready_stays()
    ensures { ReadyStays }
{}

/// A session stands for the same then, where its pages hold the same bytes and its security domain is the same.
pub fn session_stays()
    ensures { SessionStays }
{}

/// Tables say the same once load pages are written that none of their Executable Load Files has.
pub fn tables_say_the_same()
    ensures { TablesSayTheSame }
{}

/// Load pages have 256 bytes each, also once some are written.
pub fn pages_stay_whole()
    ensures { PagesStayWhole }
{}
