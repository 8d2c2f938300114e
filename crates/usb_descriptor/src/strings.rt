ghost use Rattle.std.specs.Prelude.{◌≡◌, ◌≤◌, ◌+◌, length, map, IfSome};
ghost use Rattle.std.specs.Option.{option_map};
ghost use Rattle.usb_descriptor.specs.Strings.{string_descriptor, string_of};

use arrayvec::ArrayVec;

/// A string of a set, by its index and its text in UTF-16LE.
#[derive(Default, Drop)]
pub struct StringPart {
    pub index: u8,
    pub body: ArrayVec<u8, 60>,
}

/// A string's descriptor (USB 2.0, 9.6.7).
#[derive(Default, Drop)]
pub struct StringDescriptor {
    pub index: u8,
    pub bytes: ArrayVec<u8, 62>,
}

/// The descriptor of string 0: the codes of the languages, English (United States) alone.
const LANGUAGES: [u8; 4] = [4, 3, 9, 4];

impl StringDescriptor {
    fn of(part: &StringPart) -> StringDescriptor
        ensures { result ≡ string_descriptor part.now }
    {
        let body = part.body.as_slice();
        let mut bytes = ArrayVec::new();
        bytes.push(2 + body.len() as u8);
        bytes.push(3);
        let _ = bytes.try_extend_from_slice(body);
        StringDescriptor {
            index: part.index,
            bytes,
        }
    }
}

/// The descriptors of strings.
pub fn descriptors_of(parts: &[StringPart]) -> ArrayVec<StringDescriptor, 8>
    requires { length parts.now ≤ 8 }
    ensures { result.items ≡ map string_descriptor parts.now }
{
    let mut descriptors = ArrayVec::new();
    for part in parts {
        descriptors.push(StringDescriptor::of(part));
    }
    descriptors
}

/// The descriptor of the string with an index.
pub fn string_of(strings: &[StringDescriptor], index: u8) -> Option<&[u8]>
    ensures value { option_map (λ s. s.now) result ≡ string_of strings.now index }
    ensures size { IfSome result (λ s. length s.now ≤ 62) }
{
    if index == 0 {
        return if strings.is_empty() {
            None
        } else {
            Some(&LANGUAGES)
        };
    }
    for string in strings {
        if string.index == index {
            return Some(string.bytes.as_slice());
        }
    }
    None
}
