ghost use Rattle.std.specs.Prelude.{◌≡◌, codes};
ghost use Rattle.line_rules.specs.Kinds.{kind_of, class_of, head_kind_of, cdc_kind_of, hid_kind_of, msc_kind_of, midi_kind_of};

/// What the first word of a line of the schedule says that it is.
#[derive(Clone, Copy)]
pub enum Kind {
    Reset,
    Irq,
    Task,
    State,
    End,
    Setup,
    Out,
    In,
    /// A call of a class, which the next word names.
    Class(Class),
}

/// The class of a device whose call a line is.
#[derive(Clone, Copy)]
pub enum Class {
    /// A serial port (CDC PSTN 1.2).
    Cdc,
    /// A human interface device (HID 1.11).
    Hid,
    /// A disk (mass storage, bulk only 1.0).
    Msc,
    /// A MIDI port (USB MIDI 1.0).
    Midi,
}

/// What the second word of a device's line `cdc` says that it is.
#[derive(Clone, Copy)]
pub enum CdcKind {
    Write,
    Read,
    Flush,
    Avail,
    Line,
    Notify,
}

/// The same of a line `hid`.
#[derive(Clone, Copy)]
pub enum HidKind {
    Report,
    Take,
    Set,
    Idle,
}

/// The same of a line `msc`.
#[derive(Clone, Copy)]
pub enum MscKind {
    Eject,
    Insert,
    Protect,
}

/// The same of a line `midi`.
#[derive(Clone, Copy)]
pub enum MidiKind {
    Send,
    Recv,
    Bytes,
}

/// What the first word of a line of the head says that it is.
#[derive(Clone, Copy)]
pub enum HeadKind {
    Device,
    Config,
    Text,
    Report,
    Begin,
}

/// The kind of line of the schedule that a first word names.
pub fn kind_of(name: &[u8]) -> Option<Kind>
    ensures { result ≡ kind_of name.now }
{
    if name == b"in".as_slice() {
        Some(Kind::In)
    } else if name == b"out".as_slice() {
        Some(Kind::Out)
    } else if name == b"setup".as_slice() {
        Some(Kind::Setup)
    } else if name == b"irq".as_slice() {
        Some(Kind::Irq)
    } else if name == b"task".as_slice() {
        Some(Kind::Task)
    } else if name == b"reset".as_slice() {
        Some(Kind::Reset)
    } else if name == b"end".as_slice() {
        Some(Kind::End)
    } else if name == b"state".as_slice() {
        Some(Kind::State)
    } else {
        let class = class_of(name)?;
        Some(Kind::Class(class))
    }
}

/// The class that a first word names.
fn class_of(name: &[u8]) -> Option<Class>
    ensures { result ≡ class_of name.now }
{
    if name == b"cdc".as_slice() {
        Some(Class::Cdc)
    } else if name == b"hid".as_slice() {
        Some(Class::Hid)
    } else if name == b"msc".as_slice() {
        Some(Class::Msc)
    } else if name == b"midi".as_slice() {
        Some(Class::Midi)
    } else {
        None
    }
}

/// The kind of line `cdc` that a second word names.
pub fn cdc_kind_of(name: &[u8]) -> Option<CdcKind>
    ensures { result ≡ cdc_kind_of name.now }
{
    if name == b"write".as_slice() {
        Some(CdcKind::Write)
    } else if name == b"read".as_slice() {
        Some(CdcKind::Read)
    } else if name == b"flush".as_slice() {
        Some(CdcKind::Flush)
    } else if name == b"avail".as_slice() {
        Some(CdcKind::Avail)
    } else if name == b"line".as_slice() {
        Some(CdcKind::Line)
    } else if name == b"notify".as_slice() {
        Some(CdcKind::Notify)
    } else {
        None
    }
}

/// The kind of line `hid` that a second word names.
pub fn hid_kind_of(name: &[u8]) -> Option<HidKind>
    ensures { result ≡ hid_kind_of name.now }
{
    if name == b"report".as_slice() {
        Some(HidKind::Report)
    } else if name == b"take".as_slice() {
        Some(HidKind::Take)
    } else if name == b"set".as_slice() {
        Some(HidKind::Set)
    } else if name == b"idle".as_slice() {
        Some(HidKind::Idle)
    } else {
        None
    }
}

/// The kind of line `msc` that a second word names.
pub fn msc_kind_of(name: &[u8]) -> Option<MscKind>
    ensures { result ≡ msc_kind_of name.now }
{
    if name == b"eject".as_slice() {
        Some(MscKind::Eject)
    } else if name == b"insert".as_slice() {
        Some(MscKind::Insert)
    } else if name == b"protect".as_slice() {
        Some(MscKind::Protect)
    } else {
        None
    }
}

/// The kind of line `midi` that a second word names.
pub fn midi_kind_of(name: &[u8]) -> Option<MidiKind>
    ensures { result ≡ midi_kind_of name.now }
{
    if name == b"send".as_slice() {
        Some(MidiKind::Send)
    } else if name == b"recv".as_slice() {
        Some(MidiKind::Recv)
    } else if name == b"bytes".as_slice() {
        Some(MidiKind::Bytes)
    } else {
        None
    }
}

/// The kind of line of the head that a first word names.
pub fn head_kind_of(name: &[u8]) -> Option<HeadKind>
    ensures { result ≡ head_kind_of name.now }
{
    if name == b"device".as_slice() {
        Some(HeadKind::Device)
    } else if name == b"config".as_slice() {
        Some(HeadKind::Config)
    } else if name == b"string".as_slice() {
        Some(HeadKind::Text)
    } else if name == b"report".as_slice() {
        Some(HeadKind::Report)
    } else if name == b"begin".as_slice() {
        Some(HeadKind::Begin)
    } else {
        None
    }
}
