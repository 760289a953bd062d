//! The names of what has a number.
use message::attribute_kind::AttributeKind;
use std::fmt;

/// The attributes of an event, of any number.
#[derive(Clone, Copy)]
pub struct AttributeName(pub u8);

impl fmt::Display for AttributeName {
    fn fmt<W: fmt::Write>(&self, f: &mut fmt::Formatter<W>) -> fmt::Result {
        match AttributeKind::try_from(self.0) {
            Ok(kind) => write!(f, "{kind}"),
            Err(_) => f.write_str("unknown"),
        }
    }
}

/// The attributes of a RADIUS packet. No enum: any number may come, and only these have a name here.
pub fn radius_name(kind: u8) -> &'static str {
    match kind {
        4 => "NAS-IP-Address",
        25 => "Class",
        26 => "Vendor-Specific",
        33 => "Proxy-State",
        40 => "Acct-Status-Type",
        41 => "Acct-Delay-Time",
        44 => "Acct-Session-Id",
        _ => "unknown",
    }
}
