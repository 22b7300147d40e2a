use crate::Trial;
use std::alloc::Global;
use std::test::Fail;

// A chain of 19,999 gates in which each reads the one declared behind it.
fn chain(alloc: Global) -> Result<String, Fail> {
    let mut text = String::from_str(alloc, "c2 iB oB")?;
    for _ in 0usize..19_999 {
        text.push_str(" Logical.Not")?;
    }
    for i in 0usize..19_998 {
        text.push_str(format!(in alloc; " 0:{}-{}", 2 * i + 5, 2 * i + 2)?.as_str())?;
    }
    text.push_str(" 0:0-39998 0:3-1")?;
    Ok(text)
}

#[test]
fn a_chain_of_the_most_blocks_declared_backward(rt: HostRuntime) -> Result<(), Fail> {
    let net = chain(rt.alloc())?;
    let mut trial = Trial::start(rt.alloc(), net.as_str())?;
    assert_eq!(rt; trial.runner().words().len(), 40_000);
    assert_eq!(rt; trial.blocks(), 19_999);
    for now in 0..3 {
        let given = trial.tick(now, &[now % 2]).ok_or("no tick of the net")?;
        assert!(rt; given.is_ok());
        assert!(rt; trial.shows(&[1 - now % 2]), "at {now}");
    }
    Ok(())
}
