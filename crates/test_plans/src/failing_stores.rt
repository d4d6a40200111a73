// Drones over stores that fail, while a plan is uploaded to them.
use mav_frame::encode;
use mav_messages::Message;
use mav_names::Stream;
use mav_nodes::{DroneNode, News, NodeFault, Order, StartFault, StationNode};
use mav_sign::{Datagram, Key};
use plan_items::{Item, Plan, PlanKind};
use plan_store::MemKeeper;
use std::alloc::Global;
use std::test::Fail;

// Every way in which the calls of a drone's store can fail while a plan of one item is uploaded to it. Call 0 is the
// load at the start, call 1 the save of the low bound, and the next one the save of the plan; a load follows each save
// that fails.
static FAILS: [&[u64]; 8] = [&[], &[0], &[1], &[1, 2], &[2], &[2, 3], &[1, 3], &[1, 3, 4]];

const KEY: [u8; 32] = [7; 32];

const CLOCK: u64 = 1;

const DRONE: Stream = Stream {
    sys: 1,
    comp: 1,
    link: 0,
};

const GROUND: Stream = Stream {
    sys: 255,
    comp: 190,
    link: 0,
};

const WAYPOINT: Item = Item {
    frame: 3,
    command: 16,
    current: 0,
    autocontinue: 1,
    p: [0; 4],
    x: 473_977_420,
    y: 85_455_940,
    z: 0x4220_0000,
};

// What became of a drone.
#[derive(Clone, Copy)]
enum Ending {
    // It has started, with so many items.
    Started(usize),
    // It answered the last item by an ACK of this result, and has so many items.
    Answered(u8, usize),
    // Its store failed.
    GivenUp,
}

// The frame that was sent, as a datagram with zeros after it, which are in no frame; and the result if it is an ACK.
#[derive(Clone, Copy)]
struct Said {
    bytes: [u8; 280],
    result: Option<u8>,
}

fn read_out(news: &[News]) -> Said {
    let mut said = Said {
        bytes: [0; 280],
        result: None,
    };
    for piece in news {
        if let News::Sent(frame, message) = piece {
            let bytes = frame.raw().bytes();
            said.bytes[..bytes.len()].copy_from_slice(bytes);
            if let Message::MissionAck(ack) = message {
                said.result = Some(ack.ty);
            }
        }
    }
    said
}

fn begin(alloc: Global, station: &mut StationNode) -> Option<Said> {
    let mut plan = Plan::new(alloc);
    plan.push(WAYPOINT).ok()?;
    let order = Order::Begin {
        drone: DRONE,
        kind: PlanKind::Mission,
        plan,
    };
    match station.order(order, CLOCK) {
        Ok(news) => Some(read_out(&news)),
        Err(_) => None,
    }
}

fn tell_drone(
    drone: &mut DroneNode,
    bytes: &[u8],
    keeper: &mut MemKeeper,
) -> Result<Said, NodeFault> {
    match drone.receive(&Datagram::new(bytes), CLOCK, keeper) {
        Ok(news) => Ok(read_out(&news)),
        Err(fault) => Err(fault),
    }
}

fn tell_station(station: &mut StationNode, bytes: &[u8]) -> Option<Said> {
    match station.receive(&Datagram::new(bytes), CLOCK) {
        Ok(news) => Some(read_out(&news)),
        Err(_) => None,
    }
}

fn items(drone: &DroneNode) -> usize {
    drone.plans().plan(PlanKind::Mission).len()
}

// The station uploads its plan: PING, the ACK that cancels, COUNT and the item.
fn upload(
    alloc: Global,
    station: &mut StationNode,
    drone: &mut DroneNode,
    keeper: &mut MemKeeper,
) -> Option<Ending> {
    let mut sent = begin(alloc, station)?;
    let mut result = None;
    for _ in 0..4 {
        let answer = match tell_drone(drone, &sent.bytes, keeper) {
            Ok(answer) => answer,
            Err(NodeFault::Store) => return Some(Ending::GivenUp),
            Err(_) => return None,
        };
        result = answer.result;
        sent = tell_station(station, &answer.bytes)?;
    }
    Some(Ending::Answered(result?, items(drone)))
}

fn upload_to(alloc: Global, drone: &mut DroneNode, keeper: &mut MemKeeper) -> Option<Ending> {
    match StationNode::new(alloc, Key::new(KEY), GROUND, 0) {
        Ok(mut station) => upload(alloc, &mut station, drone, keeper),
        Err(_) => None,
    }
}

// What a drone does that has started: nothing, or the plan is uploaded to it.
fn go_on(
    alloc: Global,
    drone: &mut DroneNode,
    keeper: &mut MemKeeper,
    uploads: bool,
) -> Option<Ending> {
    if uploads {
        upload_to(alloc, drone, keeper)
    } else {
        Some(Ending::Started(items(drone)))
    }
}

// A drone starts from this store, and the plan is uploaded to it if that is asked for.
fn start(alloc: Global, keeper: &mut MemKeeper, uploads: bool) -> Option<Ending> {
    match DroneNode::start(alloc, Key::new(KEY), DRONE.sys, 0, 0, keeper) {
        Ok(mut drone) => go_on(alloc, &mut drone, keeper, uploads),
        Err(StartFault::Store) => Some(Ending::GivenUp),
        Err(_) => None,
    }
}

// Two digits: the result in the ACK of the last item, or 9 if there was none; and how many items the drone has once it
// starts again. 99 for what must not be, as a plan that isn't the one that was stored.
fn digits(ending: Ending, again: Ending) -> u64 {
    match (ending, again) {
        (Ending::GivenUp, Ending::Started(0)) => 90,
        (Ending::GivenUp, Ending::Started(1)) => 91,
        (Ending::Answered(0, 1), Ending::Started(1)) => 1,
        (Ending::Answered(1, 0), Ending::Started(0)) => 10,
        _ => 99,
    }
}

fn run(alloc: Global, keeper: &mut MemKeeper) -> Option<u64> {
    let ending = start(alloc, keeper, true)?;
    let again = start(alloc, keeper, false)?;
    Some(digits(ending, again))
}

fn run_failing(alloc: Global, fails: &[u64]) -> Option<u64> {
    match Vec::from_slice(alloc, fails) {
        Ok(fails) => run(alloc, &mut MemKeeper::new(alloc, Vec::new(alloc), fails)),
        Err(_) => None,
    }
}

// The digits of all runs, after a leading 1.
fn runs(alloc: Global) -> Option<u64> {
    let mut number = 1u64;
    for fails in &FAILS {
        number = number
            .wrapping_mul(100)
            .wrapping_add(run_failing(alloc, fails)?);
    }
    Some(number)
}

#[test]
fn a_drone_has_the_old_plan_or_the_new_one(rt: HostRuntime) -> Result<(), Fail> {
    assert_eq!(rt; runs(rt.alloc()), Some(1_01_90_01_90_10_90_01_91));
    Ok(())
}
