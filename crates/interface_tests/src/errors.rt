//! What errors print. The tests also hold where any one request for memory is refused.

use host::link::LinkError;
use host_machine::{DispatchError, TimeoutError};
use interface::{AddrError, HardwareError, MulticastError, NewError};
use std::alloc::Global;
use std::fmt::Display;

/// Whether a value prints as this text. If memory for it is refused, the next call gets it.
fn prints<T: Display>(alloc: Global, value: &T, text: &str) -> bool {
    for _ in 0..2 {
        if let Ok(printed) = format!(in alloc; "{value}") {
            return printed.as_str() == text;
        }
    }
    false
}

fn are_new_errors_printed(alloc: Global) -> bool {
    prints(alloc, &NewError::MediumMismatch, "MediumMismatch")
        && prints(alloc, &NewError::NotUnicast, "NotUnicast")
        && prints(alloc, &NewError::MtuTooSmall, "MtuTooSmall")
        && prints(alloc, &NewError::MtuTooLarge, "MtuTooLarge")
}

fn are_errors_of_calls_printed(alloc: Global) -> bool {
    prints(alloc, &HardwareError::WrongMedium, "WrongMedium")
        && prints(alloc, &HardwareError::NotUnicast, "NotUnicast")
        && prints(alloc, &AddrError::NotUnicast, "NotUnicast")
        && prints(alloc, &MulticastError::GroupTableFull, "GroupTableFull")
        && prints(alloc, &MulticastError::Unaddressable, "Unaddressable")
}

#[test]
fn errors_of_interfaces_print_their_names(rt: HostRuntime) {
    assert!(rt; are_new_errors_printed(rt.alloc()) && are_errors_of_calls_printed(rt.alloc()));
}

fn are_errors_of_hosts_printed(alloc: Global) -> bool {
    prints(alloc, &LinkError::NoMemory { step: 3 }, "NoMemory")
        && prints(alloc, &TimeoutError::TimeoutTooLong, "TimeoutTooLong")
        && prints(alloc, &DispatchError::NoRoute, "NoRoute")
        && prints(alloc, &DispatchError::NeighborPending, "NeighborPending")
}

#[test]
fn errors_of_hosts_print_their_names(rt: HostRuntime) {
    assert!(rt; are_errors_of_hosts_printed(rt.alloc()));
}
