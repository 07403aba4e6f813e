//! Which security domains are above which.

ghost use Rattle.std.specs.Prelude.{◌<◌};
ghost use Rattle.domain_tree.specs.Slots.{IsFreeOfLoops};

use card_types::{Entry, Privileges, issuer_domain};
use domain_tree::{above, nearest, would_loop};

/// The Issuer Security Domain in slot 0, a domain of it in slot 2, and one of that in slot 1.
fn line(issuer: Entry) -> [Option<Entry>; 32]
    ensures { IsFreeOfLoops result }
{
    let mut entries = [None; 32];
    entries[0] = Some(Entry {
        domain: 0,
        ..issuer
    });
    entries[2] = Some(Entry {
        domain: 0,
        ..issuer
    });
    entries[1] = Some(Entry {
        domain: 2,
        ..issuer
    });
    entries
}

#[test]
fn walks_up_a_line_of_three(rt: HostRuntime) {
    let entries = line(issuer_domain());
    for (a, b, is) in [
        (0, 0, false),
        (0, 1, true),
        (0, 2, true),
        (1, 2, false),
        (2, 1, true),
        (2, 2, false),
    ] {
        assert!(rt;
            (above(&entries, a, b), would_loop(&entries, a, b)) == (is, is),
            "{a} above {b}"
        );
    }
    for (from, holders, found) in [
        (1, 0b111, Some(2)),
        (1, 0b011, Some(0)),
        (1, 0b010, None),
        (2, 0b111, Some(0)),
        (0, 0b111, None),
    ] {
        assert!(rt;
            nearest(&entries, from, Privileges::AUTHORIZED_MANAGEMENT, holders) == found,
            "above {from}"
        );
    }
}
