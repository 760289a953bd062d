//! Names of endpoints.
ghost use Rattle.std.specs.Prelude.{◌≡◌, ◌≤◌, ◌&&◌, length, is_some, nat_le, IfSome};
ghost use Rattle.message.specs.Values.{name_of, name_form};

use crate::attributes::EndpointName;

impl EndpointName {
    /// The name in some bytes, if there are 1 to 32 of them.
    pub fn new(name: &[u8]) -> Option<EndpointName>
        ensures found { is_some result ≡ (nat_le 1 (length name.now) && nat_le (length name.now) 32) }
        ensures value { IfSome result (λ x. x ≡ name_of name.now) }
    {
        if name.is_empty() || name.len() > 32 {
            return None;
        }
        Some(EndpointName::read(name))
    }

    /// The name in some bytes.
    pub(crate) fn read(bytes: &[u8]) -> EndpointName
        requires { length bytes.now ≤ 32 }
        ensures { result ≡ name_of bytes.now }
    {
        let length = bytes.len();
        let mut text = [0; 32];
        text[0..length].copy_from_slice(bytes);
        EndpointName {
            length: length as u8,
            text,
        }
    }

    /// The name without the zeros behind it.
    pub fn as_bytes(&self) -> &[u8]
        ensures value { result.now ≡ name_form self.now }
        ensures short { length result.now ≤ 32 }
    {
        let length = self.length as usize;
        if length < 32 {
            return &self.text[0..length];
        }
        &self.text
    }
}
