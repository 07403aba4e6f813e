//! What no image can spell of the tables of a card: slots too few or too many, numbers past their bytes, and pages that are no load pages.

use bitflags::Flags;
use card_check::is_card;
use card_types::{Aid, LoadFile, Privileges, Tables};
use std::alloc::Global;
use std::test::Fail;

/// The factory card with other privileges of its Issuer Security Domain, another sequence counter, and a file of one
/// byte in a load page.
fn changed(alloc: Global, privileges: u32, counter: u32, page: u16) -> Result<Tables, Fail> {
    let mut tables = Tables::factory(alloc)?;
    let issuer = tables.entries[0]
        .as_mut()
        .ok_or("the Issuer Security Domain")?;
    issuer.privileges = Privileges::from_bits_retain(privileges);
    tables.keys[0].as_mut().ok_or("a factory key")?.counter = counter;
    tables.files[1] = Some(LoadFile {
        aid: Aid::new(&[0xD2, 0, 0, 0, 1]).ok_or("five bytes")?,
        domain: 0,
        len: 1,
        pages: [page; 128],
    });
    Ok(tables)
}

#[test]
fn tables_have_their_slots(rt: HostRuntime) -> Result<(), Fail> {
    let mut tables = Tables::factory(rt.alloc())?;
    let whole = is_card(&tables);
    tables.objects.pop();
    let too_few = is_card(&tables);
    tables.objects.push(None)?;
    let again = is_card(&tables);
    tables.keys.push(None)?;
    let too_many = is_card(&tables);
    assert!(rt; [whole, too_few, again, too_many] == [true, false, true, false]);
    Ok(())
}

#[test]
fn numbers_are_in_range(rt: HostRuntime) -> Result<(), Fail> {
    for (privileges, counter, page, wanted) in [
        (0x9E_FE_80, 0, 96, true),
        (0x80_00_00, 0xFF_FFFF, 607, true),
        (0x19E_FE_80, 0, 96, false),
        (0x9E_FE_80, 0x100_0000, 96, false),
        (0x9E_FE_80, 0, 95, false),
        (0x9E_FE_80, 0, 608, false),
    ] {
        let tables = changed(rt.alloc(), privileges, counter, page)?;
        assert!(rt;
            is_card(&tables) == wanted,
            "{privileges:x} {counter:x} {page}"
        );
    }
    Ok(())
}
