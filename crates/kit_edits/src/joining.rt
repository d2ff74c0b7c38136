//! Names made of several parts.
ghost use Rattle.std.specs.Prelude.{◌≡◌, ◌≤◌, ◌++◌, length};
ghost use Rattle.std.specs.List.{AllByRecursion};
ghost use Rattle.sf_base.specs.Names.{IsName, IsTextByte};
ghost use Rattle.kit_edits.specs.declared.names.TheConstants.{OWN_LENGTH};

use arrayvec::ArrayVec;
use sf_base::Name20;

/// A name followed by the suffix of its side.
pub(crate) fn side_name(name: Name20, side: &[u8; 2]) -> Name20
    requires short { length name ≤ OWN_LENGTH }
    requires text { AllByRecursion IsTextByte side.now }
    ensures { result ≡ name ++ side.now }
{
    joined(name.bytes(), side)
}

/// The name of these two parts.
pub(crate) fn joined(front: &[u8], back: &[u8]) -> Name20
    requires { IsName (front.now ++ back.now) }
    ensures { result ≡ front.now ++ back.now }
{
    let mut text: ArrayVec<u8, 20> = ArrayVec::new();
    text.try_extend_from_slice(front).unwrap();
    text.try_extend_from_slice(back).unwrap();
    Name20::from_bytes(text.as_slice()).unwrap()
}
