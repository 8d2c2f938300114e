ghost use Rattle.std.specs.Prelude.{◌≡◌, ◌+◌, ◌<◌, ◌≤◌, ◌^◌, length, slice_index, IsTrue, IfSome};
ghost use Rattle.std.specs.Option.{option_map};
ghost use Rattle.descriptor_row.specs.Row.{byte_at, descriptor_at, begins_at, whole_at};

/// A descriptor of a configuration (USB 2.0, 9.5), by its first bytes. These hold every field that a
/// set is judged by.
#[derive(Clone, Copy, Default)]
pub struct Descriptor {
    /// Its place in the configuration, in bytes.
    pub at: u16,
    /// Its first nine bytes: bLength, bDescriptorType and seven more. Where it is shorter, zeros follow.
    pub head: [u8; 9],
}

/// Whether a descriptor begins at this place: a length of at least 2 that ends within the configuration.
pub fn begins_at(config: &[u8], at: usize) -> bool
    requires { at ≤ length config.now }
    ensures { result ≡ begins_at config.now at }
{
    if at == config.len() {
        return false;
    }
    let size = usize::from(config[at]);
    size >= 2 && size <= config.len() - at
}

/// The whole descriptor that begins at this place, where one does: as many bytes as its first one says (USB 2.0, 9.5).
pub fn whole_at(config: &[u8], at: usize) -> Option<&[u8]>
    ensures bytes { option_map (λ d. d.now) result ≡ whole_at config.now at }
    ensures size { IfSome result (λ d. length d.now ≤ 255) }
{
    if at > config.len() {
        return None;
    }
    if !begins_at(config, at) {
        return None;
    }
    Some(&config[at..at + usize::from(config[at])])
}

/// The descriptor that begins at this place.
pub fn descriptor_at(config: &[u8], at: u16) -> Descriptor
    requires { IsTrue (begins_at config.now at) }
    ensures { result ≡ descriptor_at config.now at }
{
    let byte = |k| byte_at(config, usize::from(at), k);
    Descriptor {
        at,
        head: [
            byte(0),
            byte(1),
            byte(2),
            byte(3),
            byte(4),
            byte(5),
            byte(6),
            byte(7),
            byte(8),
        ],
    }
}

/// Byte `k` of the descriptor that begins at a place, or 0 where it hasn't that many.
fn byte_at(config: &[u8], at: usize, k: usize) -> u8
    requires { IsTrue (begins_at config.now at) }
    ensures { result ≡ byte_at config.now at k }
{
    if k < usize::from(config[at]) {
        config[at + k]
    } else {
        0
    }
}
