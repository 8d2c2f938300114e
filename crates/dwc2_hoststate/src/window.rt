// The transmit FIFOs as channels use them.
ghost use Rattle.std.specs.Prelude.{◌≡◌, ◌+◌, ◌/◌, ◌≤◌, None, Some};
ghost use Rattle.dwc2_fifo.specs.Words.{word_count};
ghost use Rattle.host_table.specs.Write.{word_pushed, released, may_begin};

use crate::channel::ChannelState;
use dwc2_fifo::TxFifo;

fn words(bytes: u8) -> u16
    ensures { result ≡ word_count bytes }
{
    (bytes as u16 + 3) / 4
}

// Whether a packet of the channel may begin.
fn may_begin(fifo: &TxFifo, channel: &ChannelState, x: u8) -> bool
    ensures { result ≡ may_begin channel.now x fifo.now }
{
    let length = channel.packet_length();
    let stands = fifo.front_packet(x).is_some();
    !stands && length != 0 && words(length) <= fifo.space()
}

/// A word goes to the channel's packet. It is dropped where no packet of the channel wants it.
pub fn push_word(fifo: &mut TxFifo, channel: &ChannelState, x: u8, word: u32)
    ensures { fifo.new ≡ word_pushed channel.now x word fifo.old }
{
    match fifo.unfinished() {
        Some(tag) => {
            if tag == x {
                fifo.push_word(word);
            }
        }
        None => begin_packet(fifo, channel, x, word),
    }
}

fn begin_packet(fifo: &mut TxFifo, channel: &ChannelState, x: u8, word: u32)
    requires { fifo.old.unfinished ≡ None }
    ensures { fifo.new ≡ word_pushed channel.now x word fifo.old }
{
    if may_begin(fifo, channel, x) {
        fifo.begin(x, channel.packet_length());
        fifo.push_word(word);
    }
}

/// The channel's packet is removed, whole or begun.
pub fn remove_packet(fifo: &mut TxFifo, x: u8)
    ensures { fifo.new ≡ released x fifo.old }
{
    if fifo.unfinished() == Some(x) {
        fifo.abandon();
    }
    fifo.release(x);
}
