// The lines of links.
ghost use Rattle.std.specs.Prelude.{◌≡◌, ◌≤◌, ◌+◌, ◌++◌, length, take, codes, OnOk, OnErr};
ghost use Rattle.relay_texts.specs.Texts.{closed_line, link_text, opened_line, refused_line, why_word};

use crate::pieces::{LINE_BYTES, append_line, put_named, put_text};
use mav_text::NoMemory;
use relay_hub::Why;

fn why_word(why: Why) -> &'static [u8]
    ensures word { result.now ≡ why_word why }
    ensures short { length result.now ≤ 6 }
{
    match why {
        Why::Ended => b"ended",
        Why::Fault => b"fault",
        Why::Silent => b"silent",
    }
}

// Puts a link and its port at the start, and returns the index after them.
fn put_link(line: &mut [u8; 256], link: u64, port: u8) -> usize
    ensures index { result ≤ 64 }
    ensures text { take result line.new ≡ link_text link port }
{
    let end = put_named(line, 0, b"link ", link);
    put_named(line, end, b" port ", u64::from(port))
}

/// Appends the line of a link that opened.
pub fn append_opened(link: u64, port: u8, text: &mut Vec<u8>) -> Result<(), NoMemory>
    ensures text { OnOk result (text.new.items ≡ text.old.items ++ opened_line link port) }
    ensures unchanged { OnErr result (text.new.items ≡ text.old.items) }
{
    let mut line = [0; LINE_BYTES];
    let end = put_link(&mut line, link, port);
    let end = put_text(&mut line, end, b" open\n");
    append_line(&line, end, text)
}

/// Appends the line of a link that closed.
pub fn append_closed(link: u64, port: u8, why: Why, text: &mut Vec<u8>) -> Result<(), NoMemory>
    ensures text { OnOk result (text.new.items ≡ text.old.items ++ closed_line link port why) }
    ensures unchanged { OnErr result (text.new.items ≡ text.old.items) }
{
    let mut line = [0; LINE_BYTES];
    let end = put_link(&mut line, link, port);
    let end = put_text(&mut line, end, b" closed ");
    let end = put_text(&mut line, end, why_word(why));
    let end = put_text(&mut line, end, b"\n");
    append_line(&line, end, text)
}

/// Appends the line of a link for which there was no room.
pub fn append_refused(port: u8, text: &mut Vec<u8>) -> Result<(), NoMemory>
    ensures text { OnOk result (text.new.items ≡ text.old.items ++ refused_line port) }
    ensures unchanged { OnErr result (text.new.items ≡ text.old.items) }
{
    let mut line = [0; LINE_BYTES];
    let end = put_named(&mut line, 0, b"link refused port ", u64::from(port));
    let end = put_text(&mut line, end, b"\n");
    append_line(&line, end, text)
}
