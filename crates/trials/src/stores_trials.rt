// Stores of every make, alone and in piles.
use std::test::Fail;
use stores::{Bench, Cause, Fault, Flat, MOST_CELLS, Pair, Split, Store, test_cell, test_write};

fn fault(cause: Cause, layer: u8, cell: u32) -> Fault {
    Fault { cause, layer, cell }
}

#[test]
fn flat_keeps_the_other_bits(rt: HostRuntime) {
    let mut cells = [0xffc0_0005, 0x0040_0000];
    let mut flat = Flat::new(&mut cells);
    assert_eq!(rt; flat.read(0), Ok(5));
    assert_eq!(rt; flat.write(0, 0x3f_ffff), Ok(()));
    assert_eq!(rt; flat.write(0, 7), Ok(()));
    assert_eq!(rt; flat.upset(1, 3), Ok(()));
    assert_eq!(rt; flat.write(1, 0x40_0000), Err(fault(Cause::TooWide, 1, 1)));
    assert_eq!(rt;
        flat.write(2, 0x40_0000),
        Err(fault(Cause::PastCount, 1, 2))
    );
    drop(flat);
    assert_eq!(rt; cells, [0xffc0_0007, 0x0040_0003]);
}

// Any layer and any count, also those that no store here has.
#[test]
fn tests_of_a_layer(rt: HostRuntime) {
    assert_eq!(rt; test_cell(7, 600000, 599999), Ok(()));
    assert_eq!(rt;
        test_cell(7, 600000, 600000),
        Err(fault(Cause::PastCount, 7, 600000))
    );
    assert_eq!(rt; test_write(9, 5, 4, 0x3f_ffff), Ok(()));
    assert_eq!(rt;
        test_write(9, 5, 4, 0x40_0000),
        Err(fault(Cause::TooWide, 9, 4))
    );
    assert_eq!(rt;
        test_write(9, 5, 5, 0x40_0000),
        Err(fault(Cause::PastCount, 9, 5))
    );
}

#[test]
fn split_keeps_the_other_bits(rt: HostRuntime) {
    let mut words = [1, 2, 3];
    let mut checks = [0xc0, 0x80];
    let mut split = Split::new(&mut words, &mut checks);
    assert_eq!(rt; split.count(), 2);
    assert_eq!(rt; split.write(1, 0x3f_0009), Ok(()));
    assert_eq!(rt; split.upset(1, 0x01_0001), Ok(()));
    assert_eq!(rt; split.read(1), Ok(0x3e_0008));
    assert_eq!(rt; split.read(2), Err(fault(Cause::PastCount, 1, 2)));
    drop(split);
    assert_eq!(rt; words, [1, 8, 3]);
    assert_eq!(rt; checks, [0xc0, 0xbe]);
}

#[test]
fn no_cells(rt: HostRuntime) {
    let mut none: [u32; 0] = [];
    let mut words = [1];
    let mut checks: [u8; 0] = [];
    let mut pair = Pair::new(Flat::new(&mut none), Split::new(&mut words, &mut checks));
    assert_eq!(rt; pair.count(), 0);
    assert_eq!(rt; pair.upset(0, 0), Err(fault(Cause::PastCount, 2, 0)));
}

#[test]
fn the_largest_count(rt: HostRuntime) -> Result<(), Fail> {
    let mut cells = vec![in rt.alloc(); 0; 524289]?;
    let mut flat = Flat::new(&mut cells);
    assert_eq!(rt; flat.count(), MOST_CELLS);
    assert_eq!(rt; flat.write(524287, 1), Ok(()));
    assert_eq!(rt;
        flat.write(524288, 1),
        Err(fault(Cause::PastCount, 1, 524288))
    );
    Ok(())
}
