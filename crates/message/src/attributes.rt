//! The attributes of an event besides its header.
use crate::header::Bcid;

/// A name of 1 to 32 bytes; the bytes behind it are zeros.
// Its own array and length, and no `Buffer`: a value that holds one, with its `impl Model`, can't be passed twice, though it is
// `Copy`, and an event holds a name.
#[derive(Clone, Copy, PartialEq, Eq, Debug)]
pub struct EndpointName {
    pub length: u8,
    pub text: [u8; 32],
}

// Each field of bytes is a type of its own, and so are those of `fields`: one type with the width as its parameter would let a
// telephone number be taken for a clock's adjustment.

/// A number as dialled or billed, in text.
#[derive(Clone, Copy, PartialEq, Eq, Debug)]
pub struct TelephoneNumber(pub [u8; 20]);

/// Why a call ended: a code, and the document that has it.
#[derive(Clone, Copy, PartialEq, Eq, Debug)]
pub struct TerminationCause {
    pub source_document: u16,
    pub cause_code: u32,
}

/// By how much a clock was set, in milliseconds, signed and big-endian.
#[derive(Clone, Copy, PartialEq, Eq, Debug)]
pub struct TimeAdjustment(pub [u8; 8]);

/// Each attribute by name, with its number. Those of 26, 30, 37 and 50 may have any value.
#[derive(Clone, Copy, PartialEq, Eq, Debug, Default)]
pub struct Attributes {
    /// 3
    pub endpoint_name: Option<EndpointName>,
    /// 4
    pub calling_party_number: Option<TelephoneNumber>,
    /// 5
    pub called_party_number: Option<TelephoneNumber>,
    /// 11
    pub termination_cause: Option<TerminationCause>,
    /// 13
    pub related_call: Option<Bcid>,
    /// 16
    pub charge_number: Option<TelephoneNumber>,
    /// 25
    pub routing_number: Option<TelephoneNumber>,
    /// 26
    pub udp_port: Option<u32>,
    /// 30
    pub service_flow: Option<u32>,
    /// 37
    pub direction: Option<u16>,
    /// 38
    pub time_adjustment: Option<TimeAdjustment>,
    /// 50
    pub flow_direction: Option<u16>,
}
