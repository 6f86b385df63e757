//! What scripts in one session cannot show.
use plain_engine::PlainEngine;
use row_model::{Reply, Request, Statement};
use std::test::Fail;
use vec_base::{Refusal, Txt};

/// Sessions get the numbers from 1 on. One more than 256, and a statement of a session that is not open, are refused.
#[test]
fn sessions_are_counted_and_looked_for(rt: HostRuntime) -> Result<(), Fail> {
    let alloc = rt.alloc();
    let mut engine = PlainEngine::new(alloc)?;
    for number in 1..257u32 {
        let reply = engine.answer(Request::OpenSession);
        assert!(rt; matches!(reply, Reply::Session(id) if id == number));
    }
    let reply = engine.answer(Request::OpenSession);
    assert!(rt; matches!(reply, Reply::Refused(Refusal::Full(6, 257))));
    let statement = Statement::Drop(Txt::from_text(alloc, "v")?);
    let reply = engine.answer(Request::Execute(257, statement));
    assert!(rt; matches!(reply, Reply::Refused(Refusal::NoSession)));
    Ok(())
}
