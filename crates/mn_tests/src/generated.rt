// Runs that the generator makes: no file is read or written.
use crate::one_node::does;
use mn_edge::MemShelf;
use mn_run::Outcome;
use std::test::Fail;

#[test]
fn generate_0_delivers_a_thousand_packets(rt: HostRuntime) -> Result<(), Fail> {
    let alloc = rt.alloc();
    let shelf = MemShelf::new(alloc, Vec::new(alloc), Vec::new(alloc));
    let ran = does(alloc, &["generate", "0"], shelf, Vec::new(alloc))?;
    assert!(rt; ran.outcome == Outcome::Done);
    let begins = b"generated 0\ntotal packets 1000 delivered 1000 dropped 0 flying 0 ";
    assert!(rt; ran.out.bytes().starts_with(begins));
    assert_eq!(rt; ran.shelf.calls(), 0);
    Ok(())
}
