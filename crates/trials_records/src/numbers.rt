//! Numbers that no field of a packet has, and variables under the names of several crates.

use crate::spelled::spelled;
use etcs_bits::{Cursor, DecodeError, Fault, FaultKind, Layout, Plain, Reaction, Train3};
use std::test::Fail;

#[test]
fn a_variable_of_packets_is_exported_above_too(rt: HostRuntime) {
    assert!(rt; etcs_radio::Train3::Unknown == Train3::Unknown);
    assert!(rt; etcs_profile::Reaction::new(2) == Reaction::new(2));
    assert!(rt; etcs_packet::Reaction::new(2) == Reaction::new(2));
}

#[test]
fn a_number_has_1_to_32_bits(rt: HostRuntime) -> Result<(), Fail> {
    assert!(rt; Plain::<32>::new(u32::MAX).is_some());
    assert!(rt; Plain::<0>::new(0).is_none() && Plain::<33>::new(0).is_none());
    let bits = spelled(rt.alloc(), "1111111111 1111111111 1111111111 1111111111")?;
    let (at, end, why) = (0, 33, FaultKind::Spare);
    let many = Plain::<33>::read(rt.alloc(), &mut Cursor::new(&bits)).err();
    assert!(rt; many == Some(DecodeError::Fault(Fault { at, end, why })));
    Ok(())
}
