// Both ends of file transfer, one beside the other, with ample memory: what no contract says.
use mav_ftp::{FtpClient, FtpFault, FtpServer, FtpStep, FtpTick};
use mav_names::Stream;
use std::alloc::Global;

const STATION: Stream = Stream {
    sys: 255,
    comp: 190,
    link: 0,
};

// No piece, one of one byte, one that is full, two, and the longest file.
static SIZES: [usize; 5] = [0, 1, 239, 240, 1_048_576];

// The request after a reply that was lost: the same again.
fn again(client: &mut FtpClient) -> Option<[u8; 251]> {
    match client.tick() {
        FtpTick::Again(request) => Some(request),
        _ => None,
    }
}

// Whether the operation with this first request is done within 20,000, with these bytes; each third reply is lost.
fn gives(
    client: &mut FtpClient,
    server: &mut FtpServer,
    first: Result<[u8; 251], FtpFault>,
    wanted: &[u8],
) -> bool {
    let Ok(mut request) = first else {
        return false;
    };
    for number in 1..20_000u32 {
        let Ok(reply) = server.step(STATION, &request) else {
            return false;
        };
        let next = if number % 3 == 0 {
            again(client)
        } else {
            match client.step(&reply) {
                Ok(FtpStep::Send(next)) => Some(next),
                Ok(FtpStep::Done(bytes)) => return bytes.bytes() == wanted,
                _ => None,
            }
        };
        let Some(next) = next else {
            return false;
        };
        request = next;
    }
    false
}

fn content(alloc: Global, len: usize) -> Option<Vec<u8>> {
    let mut bytes = Vec::new(alloc);
    for number in 0..len {
        bytes.push((number % 251) as u8).ok()?;
    }
    Some(bytes)
}

// Stores a file, fetches it and removes it.
fn goes_through(
    alloc: Global,
    client: &mut FtpClient,
    server: &mut FtpServer,
    len: usize,
) -> Option<bool> {
    let bytes = content(alloc, len)?;
    let first = client.store(b"a", content(alloc, len)?);
    if !gives(client, server, first, b"") {
        return Some(false);
    }
    let first = client.fetch(b"a");
    if !gives(client, server, first, &bytes) {
        return Some(false);
    }
    let first = client.remove(b"a");
    Some(gives(client, server, first, b""))
}

fn all_go_through(alloc: Global) -> Option<bool> {
    let mut server = FtpServer::new(alloc).ok()?;
    let mut client = FtpClient::new(alloc);
    for len in &SIZES {
        if !goes_through(alloc, &mut client, &mut server, *len)? {
            return Some(false);
        }
    }
    Some(true)
}

#[test]
fn files_of_all_sizes_go_through(rt: HostRuntime) {
    let all = all_go_through(rt.alloc());
    assert!(rt; all == Some(true));
}

// A list of two files, and the list after one of them was removed.
fn lists(alloc: Global) -> Option<bool> {
    let mut server = FtpServer::new(alloc).ok()?;
    let mut client = FtpClient::new(alloc);
    for name in [b"b", b"a"] {
        let first = client.store(name, content(alloc, 300)?);
        if !gives(&mut client, &mut server, first, b"") {
            return Some(false);
        }
    }
    let first = client.list();
    if !gives(&mut client, &mut server, first, b"Fb\t300\0Fa\t300\0") {
        return Some(false);
    }
    let first = client.remove(b"b");
    if !gives(&mut client, &mut server, first, b"") {
        return Some(false);
    }
    let first = client.list();
    Some(gives(&mut client, &mut server, first, b"Fa\t300\0"))
}

#[test]
fn files_are_listed_as_they_were_made(rt: HostRuntime) {
    let listed = lists(rt.alloc());
    assert!(rt; listed == Some(true));
}

// The errors of the replies to the 256th stream and the 257th, each of which asks for a list.
fn last_errors(alloc: Global) -> Option<[u8; 2]> {
    let mut server = FtpServer::new(alloc).ok()?;
    let request = FtpClient::new(alloc).list().ok()?;
    let mut errors = [0; 2];
    for number in 0..257u16 {
        let from = Stream {
            sys: (number & 255) as u8,
            comp: (number >> 8) as u8,
            link: 0,
        };
        let reply = server.step(from, &request).ok()?;
        errors = [errors[1], reply[12]];
    }
    Some(errors)
}

#[test]
fn the_257th_stream_is_refused(rt: HostRuntime) {
    let errors = last_errors(rt.alloc());
    assert!(rt; errors == Some([6, 1]));
}
