use crate::sample::Sample;
use array::array::ArrayRef;
use block::call::Call;
use block::fault::{Code, Fault, Part, Spot};
use block::kind::Kind;
use block::slot::{Slot, Value};
use block_iter::block_iter::BlockIter;
use block_iter::replay::{Refusal, Replayed, replay};
use reader::reader::Reader;
use std::test::Fail;

// The slots of the visible units of list 0.
const LETTER_A: Slot = Slot::Content {
    kind: Kind::Text,
    start: 0,
    len: 1,
};

const LETTER_B: Slot = Slot::Content {
    kind: Kind::Text,
    start: 1,
    len: 1,
};

const NESTED: Slot = Slot::List(1);

const LETTER_C: Slot = Slot::Content {
    kind: Kind::Text,
    start: 4,
    len: 1,
};

// The refusal of a call that goes beyond list 0.
const FAR: Fault = Fault {
    code: Code::BeyondLength,
    part: Part::Cursor,
    spot: Spot::List(0),
    clips: 0,
};

// What no call leaves in a slot or an outcome.
const OLD: Slot = Slot::List(99);

const UNMADE: Result<(), Fault> = Err(Fault {
    code: Code::Misplaced,
    part: Part::Edit,
    spot: Spot::Nowhere,
    clips: 9,
});

// What a cursor on list 0 answers to the second of two skips, its index then, and whether it is at
// the end.
fn skipped(first: u32, second: u32) -> Result<(Result<(), Fault>, u32, bool), Fault> {
    let mut cursor = BlockIter::open(&Sample, 0).map_err(|(_, fault)| fault)?;
    let _ = cursor.try_forward(first);
    let answer = cursor.try_forward(second);
    Ok((answer, cursor.index(), cursor.finished()))
}

#[test]
fn skips(rt: HostRuntime) -> Result<(), Fail> {
    let cases = [
        (0, 0, Ok(()), 0),
        (0, 1, Ok(()), 1),
        (0, 3, Ok(()), 3),
        (0, 4, Ok(()), 4),
        (0, 5, Err(FAR), 0),
        (0, u32::MAX, Err(FAR), 0),
        (1, 0, Ok(()), 1),
        (1, 3, Ok(()), 4),
        (1, 4, Err(FAR), 1),
        (1, u32::MAX, Err(FAR), 1),
        (4, 0, Ok(()), 4),
        (4, 1, Err(FAR), 4),
        (4, u32::MAX, Err(FAR), 4),
        (5, 4, Ok(()), 4),
    ];
    for (first, second, answer, index) in cases {
        assert_eq!(rt; skipped(first, second)?, (answer, index, index == 4));
    }
    Ok(())
}

#[test]
fn reads(rt: HostRuntime) -> Result<(), Fail> {
    let mut cursor = BlockIter::open(&Sample, 0).map_err(|(_, fault)| fault)?;
    let mut five = [OLD; 5];
    let mut one = [OLD; 1];
    let mut two = [OLD; 2];
    let mut last = [OLD; 1];
    assert_eq!(rt; cursor.slice(&mut five), Err(FAR));
    assert_eq!(rt; cursor.slice(&mut one), Ok(()));
    assert_eq!(rt; cursor.slice(&mut two), Ok(()));
    assert_eq!(rt; cursor.slice(&mut last), Ok(()));
    assert_eq!(rt; five, [OLD; 5]);
    assert_eq!(rt; one, [LETTER_A]);
    assert_eq!(rt; two, [LETTER_B, NESTED]);
    assert_eq!(rt; last, [LETTER_C]);
    let end = (cursor.index(), cursor.finished(), cursor.read_value());
    assert_eq!(rt; end, (4, true, None));
    Ok(())
}

#[test]
fn read_values(rt: HostRuntime) -> Result<(), Fail> {
    let mut cursor = BlockIter::open(&Sample, 0).map_err(|(_, fault)| fault)?;
    assert_eq!(rt; cursor.read_value(), Some(LETTER_A));
    assert_eq!(rt; cursor.read_value(), Some(LETTER_B));
    assert_eq!(rt; cursor.read_value(), Some(NESTED));
    assert_eq!(rt; cursor.read_value(), Some(LETTER_C));
    assert_eq!(rt; cursor.read_value(), None);
    Ok(())
}

// What a replay came to, in a word and a number.
fn told(res: Result<Replayed, Refusal>) -> (&'static str, usize) {
    match res {
        Ok(p) => ("used", p.used),
        Err(Refusal::Refused(e)) => ("fault", usize::from(u8::from(e.code))),
        Err(Refusal::FewOutcomes { needed }) => ("few outcomes", needed),
        Err(Refusal::FewSlots { needed }) => ("few slots", needed),
    }
}

#[test]
fn replays(rt: HostRuntime) {
    let done = Ok(());
    let far = Err(FAR);
    let all = [LETTER_A, LETTER_B, NESTED, LETTER_C];
    let none = [OLD; 4];
    let cases = [
        ([Call::Read(0), Call::Read(4)], [done, done], 4, all),
        ([Call::Read(1), Call::Read(3)], [done, done], 4, all),
        ([Call::Read(3), Call::Read(1)], [done, done], 4, all),
        ([Call::Read(4), Call::Read(1)], [done, far], 4, all),
        ([Call::Read(4), Call::Read(u32::MAX)], [done, far], 4, all),
        ([Call::Read(5), Call::Read(4)], [far, done], 4, all),
        (
            [Call::Skip(1), Call::Read(3)],
            [done, done],
            3,
            [LETTER_B, NESTED, LETTER_C, OLD],
        ),
        ([Call::Skip(1), Call::Read(4)], [done, far], 0, none),
        ([Call::Skip(1), Call::Read(u32::MAX)], [done, far], 0, none),
        ([Call::Skip(4), Call::Read(0)], [done, done], 0, none),
    ];
    for (calls, outcomes, used, slots) in cases {
        let mut answers = [UNMADE; 2];
        let mut shown = [OLD; 4];
        let (_, result) = replay(&Sample, 0, &calls, &mut answers, &mut shown);
        assert_eq!(rt; told(result), ("used", used));
        assert_eq!(rt; answers, outcomes);
        assert_eq!(rt; shown, slots);
    }
}

// Replays four calls, of which the second is refused.
fn four_calls(
    list: u32,
    outcomes: &mut [Result<(), Fault>],
    slots: &mut [Slot],
) -> (&'static str, usize) {
    let calls = [Call::Read(2), Call::Read(9), Call::Skip(1), Call::Read(1)];
    let (_, result) = replay(&Sample, list, &calls, outcomes, slots);
    told(result)
}

#[test]
fn buffers(rt: HostRuntime) {
    let done = Ok(());
    let far = Err(FAR);
    let mut short = [UNMADE; 3];
    let mut exact = [UNMADE; 4];
    let mut long = [UNMADE; 5];
    let mut two = [OLD; 2];
    let mut three = [OLD; 3];
    let mut five = [OLD; 5];
    assert_eq!(rt; four_calls(0, &mut short, &mut three), ("few outcomes", 4));
    assert_eq!(rt; four_calls(0, &mut exact, &mut two), ("few slots", 3));
    assert_eq!(rt; four_calls(2, &mut exact, &mut three), ("fault", 5));
    assert_eq!(rt; short, [UNMADE; 3]);
    assert_eq!(rt; exact, [UNMADE; 4]);
    assert_eq!(rt; two, [OLD; 2]);
    assert_eq!(rt; three, [OLD; 3]);
    assert_eq!(rt; four_calls(0, &mut exact, &mut three), ("used", 3));
    assert_eq!(rt; four_calls(0, &mut long, &mut five), ("used", 3));
    assert_eq!(rt; exact, [done, far, done, done]);
    assert_eq!(rt; three, [LETTER_A, LETTER_B, LETTER_C]);
    assert_eq!(rt; long, [done, far, done, done, UNMADE]);
    assert_eq!(rt; five, [LETTER_A, LETTER_B, LETTER_C, OLD, OLD]);
}

// A value's bytes, or words for what has none.
fn face<'a>(value: Option<Value<'a>>) -> &'a [u8] {
    match value {
        None => b"none",
        Some(Value::Text(bytes)) => bytes,
        Some(Value::List(1)) => b"list 1",
        Some(_) => b"other",
    }
}

#[test]
fn arrays(rt: HostRuntime) -> Result<(), Fail> {
    let letters: [(u32, &[u8]); 7] = [
        (0, b"a"),
        (1, b"b"),
        (2, b"list 1"),
        (3, b"c"),
        (4, b"none"),
        (5, b"none"),
        (u32::MAX, b"none"),
    ];
    let list = ArrayRef::new(&Sample, 0);
    for (i, letter) in letters {
        assert_eq!(rt; face(list.get(i)), letter);
    }
    assert_eq!(rt;
        face(ArrayRef::new(&Sample, 1).get(0)),
        b"\xC3\xA9".as_slice()
    );
    let mut steps = list.iter()?;
    assert_eq!(rt; face(steps.next()), b"a".as_slice());
    assert_eq!(rt; face(steps.next()), b"b".as_slice());
    assert_eq!(rt; face(steps.next()), b"list 1".as_slice());
    assert_eq!(rt; face(steps.next()), b"c".as_slice());
    assert_eq!(rt; face(steps.next()), b"none".as_slice());
    steps.close();
    assert_eq!(rt; face(list.iter()?.nth(3)), b"c".as_slice());
    Ok(())
}

#[test]
fn faults(rt: HostRuntime) -> Result<(), Fail> {
    let Err((back, fault)) = BlockIter::open(Sample, 2) else {
        return Err(Fail::new("there is no list 2"));
    };
    assert_eq!(rt; u8::from(fault.code), 5);
    assert_eq!(rt; back.length(0)?, 4);
    let far = FAR;
    let line = format!(in rt.alloc(); "{far}")?;
    assert_eq!(rt;
        line.as_str(),
        "fault 6: beyond the length of the list (cursor, list 0)"
    );
    Ok(())
}
