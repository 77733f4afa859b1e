use crate::pair::Pair;
use crate::pairs::Pairs;
use block::fault::{Code, Fault};
use std::test::Fail;

fn pair(client: u64, clock: u32) -> Pair {
    Pair { client, clock }
}

fn refusal(r: Result<Pairs, Fault>) -> Option<Code> {
    r.err().map(|e| e.code)
}

#[test]
fn pairs_in_range_are_taken(rt: HostRuntime) {
    assert_eq!(rt; refusal(Pairs::new(&[])), None);
    assert_eq!(rt;
        refusal(Pairs::new(&[pair((1 << 53) - 1, (1 << 31) - 1)])),
        None
    );
    assert_eq!(rt;
        refusal(Pairs::new(&[pair(1 << 53, 0)])),
        Some(Code::OutOfRange)
    );
    assert_eq!(rt;
        refusal(Pairs::new(&[pair(1, 1 << 31)])),
        Some(Code::OutOfRange)
    );
    assert_eq!(rt;
        refusal(Pairs::new(&[pair(7, 1), pair(8, 1), pair(7, 2)])),
        Some(Code::OutOfRange)
    );
}

#[test]
fn too_many_pairs_come_after_a_bad_one(rt: HostRuntime) -> Result<(), Fail> {
    let mut many: [Pair; 65] = std::array::from_fn(|i| pair(i as u64, 1));
    assert_eq!(rt; refusal(Pairs::new(&many[..64])), None);
    assert_eq!(rt; refusal(Pairs::new(&many)), Some(Code::LimitPassed));
    many[64] = pair(3, 1);
    assert_eq!(rt; refusal(Pairs::new(&many)), Some(Code::OutOfRange));
    Ok(())
}

#[test]
fn a_join_has_the_lesser_clocks(rt: HostRuntime) -> Result<(), Fail> {
    let a = Pairs::new(&[pair(1, 5), pair(2, 9), pair(4, 6)])?;
    let b = Pairs::new(&[pair(4, 8), pair(2, 4), pair(3, 7)])?;
    let both = a.join(b);
    assert_eq!(rt; both.limit(1), 0);
    assert_eq!(rt; both.limit(2), 4);
    assert_eq!(rt; both.limit(3), 0);
    assert_eq!(rt; both.limit(4), 6);
    Ok(())
}
