// Ports with the jobs of their threads, and back.
ghost use Rattle.std.specs.Prelude.{◌≡◌, ◌≤◌, ◌+◌, ℕ, List, map, vec_len, vec_capacity, slice_get, Some, IfOk};
ghost use Rattle.mav_router.specs.Threads.{IsStocked, IsPlaced};

use crate::crew::{Crew, PortJob};
use crate::lane::Lane;
use crate::moves::{put_last, take_first};
use crate::parts::{Halt, Part, Room, Side};
use crate::routing::new_lanes;
use crate::{NoMemory, Switch};
use dialect::Dialect;
use link_table::Ways;
use std::alloc::Global;
use turnstile::TurnSeat;

/// What threads are made of beside links and seats, and room for what is left of them.
#[derive(Drop)]
pub(crate) struct Stock<L> {
    pub(crate) lanes: Vec<Lane>,
    pub(crate) rooms: Vec<Room>,
    pub(crate) sides: Vec<Side<L>>,
}

fn new_rooms(alloc: Global, count: usize) -> Result<Vec<Room>, NoMemory>
    ensures { IfOk result (λ rooms. vec_len rooms ≡ count) }
{
    let mut rooms = Vec::new(alloc);
    for at in 0..count {
        let _ = at;
        rooms.push(Room::new(alloc)?)?;
    }
    Ok(rooms)
}

/// What so many ports need.
pub(crate) fn new_stock<L>(
    alloc: Global,
    known: &Dialect,
    plain: Ways,
    count: usize,
) -> Result<Stock<L>, NoMemory>
    requires { count ≤ 8 }
    ensures { IfOk result (λ stock. (key : List ℕ)
        → IsStocked (record { key = key; known = known.now; ports = count; plain = plain }) stock) }
{
    Ok(Stock {
        lanes: new_lanes(alloc, known, plain, count)?,
        rooms: new_rooms(alloc, count)?,
        sides: Vec::with_capacity(alloc, count)?,
    })
}

/// Makes the job of each port.
pub(crate) fn muster<'a, 't, L: Drop>(
    crew: &Crew<'a, 't>,
    stock: &mut Stock<L>,
    seats: &mut Vec<TurnSeat<Switch<'a>>>,
    ports: &mut Vec<L>,
    jobs: &mut Vec<PortJob<'a, 't, L>>,
)
    requires few { vec_len ports.old ≤ 8 }
    requires lanes { vec_len stock.old.lanes ≡ vec_len ports.old }
    requires rooms { vec_len stock.old.rooms ≡ vec_len ports.old }
    requires seats { vec_len seats.old ≡ vec_len ports.old }
    requires new { vec_len jobs.old ≡ 0 }
    requires room { vec_len ports.old ≤ vec_capacity jobs.old }
    ensures links { map (λ job. job.part.side.link) jobs.new.items ≡ ports.old.items }
    ensures lanes { map (λ job. job.part.side.lane) jobs.new.items ≡ stock.old.lanes.items }
    ensures seats { map (λ job. job.part.seat) jobs.new.items ≡ seats.old.items }
    ensures placed { (k : ℕ) (job : _) → slice_get jobs.new.items k ≡ Some job → IsPlaced k job.part }
    ensures shared { (k : ℕ) (job : _) → slice_get jobs.new.items k ≡ Some job → job.crew ≡ crew.now }
    ensures sides { stock.new.sides ≡ stock.old.sides }
    ensures no_ports { (vec_len ports.new ≡ 0) × (vec_capacity ports.new ≡ vec_capacity ports.old) }
    ensures no_seats { (vec_len seats.new ≡ 0) × (vec_capacity seats.new ≡ vec_capacity seats.old) }
{
    for at in 0..ports.len() {
        let side = Side {
            link: take_first(ports),
            lane: take_first(&mut stock.lanes),
            taken: 0,
            room: take_first(&mut stock.rooms),
            halt: Halt::Done,
        };
        let part = Part {
            port: at as u8 + 1,
            seat: take_first(seats),
            side,
        };
        put_last(jobs, PortJob { crew: *crew, part });
    }
}

/// Takes apart what the threads left.
pub(crate) fn dismiss<'a, L: Drop>(
    jobs: Vec<PortJob<'a, '_, L>>,
    sides: &mut Vec<Side<L>>,
    seats: &mut Vec<TurnSeat<Switch<'a>>>,
)
    requires no_sides { vec_len sides.old ≡ 0 }
    requires no_seats { vec_len seats.old ≡ 0 }
    requires room { vec_len jobs ≤ vec_capacity sides.old }
    requires seat_room { vec_len jobs ≤ vec_capacity seats.old }
    ensures sides { sides.new.items ≡ map (λ job. job.part.side) jobs.entry.items }
    ensures seats { seats.new.items ≡ map (λ job. job.part.seat) jobs.entry.items }
{
    let mut left = jobs;
    for at in 0..left.len() {
        let _ = at;
        let PortJob { part, .. } = take_first(&mut left);
        let Part {
            port: _,
            seat,
            side,
        } = part;
        put_last(sides, side);
        put_last(seats, seat);
    }
    left.destroy_empty();
}

/// Gives the links back, in the order of the ports.
pub(crate) fn give_links<L: Drop>(sides: &mut Vec<Side<L>>, links: &mut Vec<L>)
    requires new { vec_len links.old ≡ 0 }
    requires room { vec_len sides.old ≤ vec_capacity links.old }
    ensures { links.new.items ≡ map (λ side. side.link) sides.old.items }
{
    for at in 0..sides.len() {
        let _ = at;
        let Side { link, .. } = take_first(sides);
        put_last(links, link);
    }
}
