//! An introducer's directory, with memory enough.

use crate::keying::address;
use identity::Epd;
use introducer::Directory;
use std::alloc::Global;
use std::test::Fail;

fn end(byte: u8) -> Epd {
    Epd { print: [byte; 32] }
}

/// Whether a hello goes to the session that was kept last, and is answered by a row.
fn goes_on(alloc: Global) -> bool {
    let places = [address(1); 2];
    let mut directory = Directory::new(alloc);
    let kept = directory.keep([1; 32], 10).is_ok() && directory.keep([1; 32], 11).is_ok();
    let added = directory.add_row([2; 32], &places).is_ok();
    directory.gone(11);
    kept && added
        && directory.forward(&end(1)) == Some(10)
        && directory.redirect(&end(2)) == Some(places.as_slice())
        && directory.redirect(&end(1)).is_none()
}

#[test]
fn a_hello_goes_on(rt: HostRuntime) {
    assert!(rt; goes_on(rt.alloc()));
}
