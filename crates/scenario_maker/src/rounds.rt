// What the rounds of a generated scenario draw.
ghost use Rattle.std.specs.Prelude.{◌≡◌};
ghost use Rattle.scenario_maker.specs.Generator.{next, drawn, after, course_of, round_from};

// What a round does after its `begin` line.
#[derive(Clone, Copy)]
pub(crate) enum Course {
    // One flow gives all frames.
    Straight,
    // The station cancels within the flow.
    Cancelled,
    // It ticks five times within the flow.
    Ticked,
    // A sent frame is delivered once more within the flow.
    Repeated,
}

// One round. The station and the drone are numbered from 0.
#[derive(Clone, Copy)]
pub(crate) struct Round {
    pub station: u32,
    pub drone: u32,
    pub items: u32,
    pub course: Course,
    pub first: u32,
    pub again: u32,
}

fn next(state: u32) -> u32
    ensures { result ≡ next state }
{
    ((u64::from(state) * 1_103_515_245 + 12_345) % (1 << 31)) as u32
}

fn drawn(state: u32) -> u32
    ensures { result ≡ drawn state }
{
    state / 65_536
}

fn course_of(draw: u32) -> Course
    ensures { result ≡ course_of draw }
{
    match draw {
        0 => Course::Straight,
        1 => Course::Cancelled,
        2 => Course::Ticked,
        _ => Course::Repeated,
    }
}

/// The round that the six draws from this state give, and the state after them.
pub(crate) fn round_from(state: u32) -> (Round, u32)
    ensures round { result.0 ≡ round_from state }
    ensures state { result.1 ≡ after 6 state }
{
    let station = next(state);
    let drone = next(station);
    let items = next(drone);
    let course = next(items);
    let first = next(course);
    let again = next(first);
    let round = Round {
        station: drawn(station) % 4,
        drone: drawn(drone) % 4,
        items: 1 + drawn(items) % 25,
        course: course_of(drawn(course) % 4),
        first: drawn(first) % 60,
        again: 1 + drawn(again) % 1000,
    };
    (round, again)
}
