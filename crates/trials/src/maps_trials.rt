// Bank maps over stores, alone and in piles.
use maps::{Bank, BankMap, Map};
use std::test::Fail;
use stores::{Bench, Cause, Fault, Flat, Pair, Split, Store, is_fitted};

fn fault(cause: Cause, layer: u8, cell: u32) -> Fault {
    Fault { cause, layer, cell }
}

fn map(count: u32, banks: &[Bank]) -> Result<BankMap, Fail> {
    BankMap::new(count, banks).map_err(|_| Fail::new("no map"))
}

#[test]
fn map_over_flat(rt: HostRuntime) -> Result<(), Fail> {
    let mut cells = [10, 11, 12, 13, 14, 15];
    let banks = [
        Bank {
            offset: 0,
            length: 4,
        },
        Bank {
            offset: 8,
            length: 4,
        },
    ];
    let map = map(16, &banks)?;
    let mut store = Map::new(&map, Flat::new(&mut cells));
    assert_eq!(rt; store.read(8), Ok(14));
    assert_eq!(rt; store.read(4), Err(fault(Cause::NotFitted, 3, 4)));
    assert_eq!(rt; store.read(10), Err(fault(Cause::PastCount, 1, 6)));
    assert_eq!(rt; store.read(16), Err(fault(Cause::PastCount, 3, 16)));
    assert_eq!(rt; store.write(4, 0x40_0000), Err(fault(Cause::TooWide, 3, 4)));
    assert_eq!(rt; store.write(9, 0x40_0000), Err(fault(Cause::TooWide, 3, 9)));
    assert_eq!(rt; store.upset(9, 1), Ok(()));
    assert!(rt; is_fitted(&store, 9) && !is_fitted(&store, 10));
    drop(store);
    assert_eq!(rt; cells, [10, 11, 12, 13, 14, 14]);
    Ok(())
}

#[test]
fn a_pile_three_deep(rt: HostRuntime) -> Result<(), Fail> {
    let mut words = [0; 2];
    let mut checks = [0; 2];
    let mut cells = [0; 3];
    let banks = [Bank {
        offset: 1,
        length: 2,
    }];
    let map = map(3, &banks)?;
    let mut pile = Pair::new(
        Map::new(&map, Split::new(&mut words, &mut checks)),
        Map::new(&map, Flat::new(&mut cells)),
    );
    assert_eq!(rt; pile.count(), 6);
    assert_eq!(rt; pile.write(0, 1), Err(fault(Cause::NotFitted, 3, 0)));
    assert_eq!(rt; pile.write(4, 0x01_0002), Ok(()));
    assert_eq!(rt; pile.write(5, 3), Ok(()));
    assert_eq!(rt; pile.upset(5, 1), Ok(()));
    assert_eq!(rt; pile.read(6), Err(fault(Cause::PastCount, 2, 6)));
    drop(pile);
    assert_eq!(rt; words, [0, 2]);
    assert_eq!(rt; checks, [0, 1]);
    assert_eq!(rt; cells, [0, 2, 0]);
    Ok(())
}

#[test]
fn what_is_no_map(rt: HostRuntime) {
    let one = Bank {
        offset: 4,
        length: 4,
    };
    let touching = Bank {
        offset: 8,
        length: 1,
    };
    let empty = Bank {
        offset: 9,
        length: 0,
    };
    assert!(rt; BankMap::new(524288, &[]).is_ok());
    assert!(rt; BankMap::new(524289, &[]).is_err());
    assert!(rt; BankMap::new(9, &[one, touching]).is_ok());
    assert!(rt; BankMap::new(8, &[one, touching]).is_err());
    assert!(rt; BankMap::new(9, &[touching, one]).is_err());
    assert!(rt; BankMap::new(9, &[one, one]).is_err());
    assert!(rt; BankMap::new(9, &[empty]).is_err());
    assert!(rt; BankMap::new(9, &[one; 9]).is_err());
}
