// A stored image with its bytes written out by hand.
use mav_names::{Name, Stream};
use plan_items::{Item, PlanMsg};
use plan_upload::{Drone, Kept, KeptFault, read_kept};
use std::alloc::Global;

// System id 1, the low bound 5001, a mission of one item, no fence and no rally points.
static MISSION_OF_ONE: [u8; 48] = [
    1, // system id
    0x89, 0x13, 0, 0, 0, 0, 0, 0, // 5001
    1, 0, // one item
    3, // GLOBAL_RELATIVE_ALT
    16, 0, // NAV_WAYPOINT
    0, 1, // current, autocontinue
    0, 0, 0, 0, 0, 0, 0, 0, 0, 0, 0, 0, 0, 0, 0, 0, // params
    0x4c, 0x52, 0x40, 0x1c, // latitude 47.3977420
    0x44, 0xf4, 0x17, 0x05, // longitude 8.5455940
    0, 0, 0x20, 0x42, // 40 metres
    0, 0, // no fence
    0, 0, // no rally point
];

// Uploads a mission of one item to the drone.
fn upload(drone: &mut Drone) {
    let ground = Stream {
        sys: 255,
        comp: 190,
        link: 0,
    };
    let to = Name { sys: 1, comp: 1 };
    let item = Item {
        frame: 3,
        command: 16,
        current: 0,
        autocontinue: 1,
        p: [0; 4],
        x: 473_977_420,
        y: 85_455_940,
        z: 0x4220_0000,
    };
    let _asked = drone.step(
        true,
        ground,
        &PlanMsg::Count {
            to,
            count: 1,
            kind: 0,
        },
    );
    let _accepted = drone.step(
        true,
        ground,
        &PlanMsg::Item {
            to,
            seq: 0,
            kind: 0,
            item,
        },
    );
}

// Whether the drone keeps the bytes that are written above.
fn keeps_as_written(alloc: Global, drone: &Drone) -> bool {
    match drone.kept(alloc, 5001) {
        Ok(bytes) => bytes.as_slice() == MISSION_OF_ONE.as_slice(),
        Err(_) => false,
    }
}

// Whether a drone does after an upload.
fn keeps_upload(alloc: Global) -> bool {
    match Drone::new(alloc, 1) {
        Ok(mut drone) => {
            upload(&mut drone);
            keeps_as_written(alloc, &drone)
        }
        Err(_) => false,
    }
}

// Whether a drone does that starts again with these plans.
fn restores_upload(alloc: Global, kept: &Kept) -> bool {
    match Drone::restore(alloc, 1, kept) {
        Ok(drone) => keeps_as_written(alloc, &drone),
        Err(_) => false,
    }
}

// Whether a drone does that starts again with the plans in those bytes.
fn reads_upload(alloc: Global) -> bool {
    match read_kept(alloc, 1, MISSION_OF_ONE.as_slice()) {
        Ok(kept) => restores_upload(alloc, &kept),
        Err(_) => false,
    }
}

#[test]
fn one_byte_is_no_image(rt: HostRuntime) {
    let is_bad = matches!(read_kept(rt.alloc(), 1, &[1]), Err(KeptFault::BadKept));
    assert!(rt; is_bad);
}

#[test]
fn an_uploaded_mission_is_kept(rt: HostRuntime) {
    let is_kept = keeps_upload(rt.alloc()) && reads_upload(rt.alloc());
    assert!(rt; is_kept);
}
