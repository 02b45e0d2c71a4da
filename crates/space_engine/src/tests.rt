// That calls succeed, with answers that were written out by hand.
use crate::{Counts, Space};
use space_io::MemorySink;
use space_model::{Command, Phase, Steps};
use std::sync::ledger::Blank;
use std::test::Fail;

#[test]
fn a_space_begins_and_answers(rt: HostRuntime) -> Result<(), Fail> {
    let alloc = rt.alloc();
    let mut space = Space::new(alloc, 4096)?;
    assert!(rt; space.phase() == Phase::Idle && space.turns() == 0);
    let mut sink = MemorySink::new(alloc, 100, 100, Vec::new(alloc))?;
    let mut steps = Steps::start(Blank::new(1));
    let counts = space.step(&Command::Pop, &mut sink, &mut steps);
    let refused = Counts {
        objects: 0,
        gone: 0,
        moves: 0,
        finals: 0,
        full: 0,
        errors: 1,
        no_memory: 0,
    };
    assert!(rt; counts == Ok(refused) && space.turns() == 1);
    assert!(rt; sink.bytes() == b"error no word\n".as_slice());
    Ok(())
}
