// What the contract of `run_alone` alone says of whole runs, at the ports in memory.
ghost use Rattle.std.specs.Prelude.{◌≡◌, ◌∷◌, ◌⊎◌, [], true, false, Some, codes, map};
ghost use Rattle.std.specs.Prelude.{string_bytes, IfOk};
ghost use Rattle.decode_command.specs.Examples.{one_heartbeat, one_heartbeat_text};
ghost use Rattle.dialect_command.specs.Examples.{profile_layouts};
ghost use Rattle.test_fleet.specs.OneItem.{one_item, one_item_installed, IsInstalledOnce};
ghost use Rattle.test_runs.specs.Restarts.{restart_between, restart_between_report};

use mav_ports::{MemClock, Sink, Source, SureSink, SureSource};
use station_cli::{Inputs, run_alone};
use std::alloc::{AllocError, Global};
use std::test::Fail;

const ONE_ITEM: &[u8] =
    b"drone 1\nstation 255 190\nitem 6 16 473977420 85455940\nbegin 255.190 1.1 mission\nflow 20\n";

// The drone starts again between the last item and its acknowledgement.
const RESTART_BETWEEN: &[u8] =
    b"drone 1\nstation 255 190\nitem 6 16 473977420 85455940\nbegin 255.190 1.1 mission\nflow 7\nrestart 1.1\ndeliver 7 1.1\ndeliver 9 255.190\ntick 255.190\ntick 255.190\ntick 255.190\ntick 255.190\ntick 255.190\ndeliver 10 1.1\ndeliver 11 255.190\ndeliver 12 1.1\ndeliver 13 255.190\n";

// Garbage, a HEARTBEAT and the beginning of a frame.
const STREAM: &[u8] = &[
    7, 0xFD, 9, 0, 0, 0, 1, 1, 0, 0, 0, 0, 0, 0, 0, 2, 3, 81, 4, 3, 0xE7, 0x1E, 0xFD,
];

// The four runs, from what their contracts say alone: what is written is a text that the
// definitions compute, checksums, CRC_EXTRA bytes and signatures under the bytes 0 to 31 and all.
// By completeness the first is done if the output refuses nothing, unless memory runs out.
// And in the history of the abstract mission store of the first the plan was installed, once, and
// what its outcome says is true.
fn run_one(
    alloc: Global,
    words: &[String],
    inputs: &mut Inputs<SureSource>,
    out: &mut SureSink,
) -> u8
    requires one { ((map string_bytes words.now ≡ codes "fleet" ∷ codes "file" ∷ [])
        × ((⟦<SureSource as Source>⟧.left inputs.old.main ≡ Some one_item)
        ⊎ (⟦<SureSource as Source>⟧.left inputs.old.main ≡ Some restart_between)))
        ⊎ (((map string_bytes words.now ≡ codes "decode" ∷ codes "file" ∷ [])
        × (⟦<SureSource as Source>⟧.left inputs.old.main ≡ Some one_heartbeat))
        ⊎ (map string_bytes words.now ≡ codes "dialect" ∷ [])) }
    requires empty { ⟦<SureSink as Sink>⟧.sent out.old ≡ Some [] }
    ensures status { (result ≡ 0) ⊎ ((result ≡ 5) ⊎ (result ≡ 7)) }
    ensures report { map string_bytes words.now ≡ codes "fleet" ∷ codes "file" ∷ []
        → ⟦<SureSource as Source>⟧.left inputs.old.main ≡ Some one_item
        → result ≡ 0 → ⟦<SureSink as Sink>⟧.sent out.new ≡ Some one_item_installed }
    ensures installed { map string_bytes words.now ≡ codes "fleet" ∷ codes "file" ∷ []
        → ⟦<SureSource as Source>⟧.left inputs.old.main ≡ Some one_item
        → result ≡ 0 → IsInstalledOnce }
    ensures completed { map string_bytes words.now ≡ codes "fleet" ∷ codes "file" ∷ []
        → ⟦<SureSource as Source>⟧.left inputs.old.main ≡ Some one_item
        → ⟦<SureSink as Sink>⟧.faults out.old ≡ 0 → ⟦<SureSink as Sink>⟧.faults out.new ≡ 0
        → (result ≡ 0) ⊎ (result ≡ 7) }
    ensures restarted { map string_bytes words.now ≡ codes "fleet" ∷ codes "file" ∷ []
        → ⟦<SureSource as Source>⟧.left inputs.old.main ≡ Some restart_between
        → result ≡ 0 → ⟦<SureSink as Sink>⟧.sent out.new ≡ Some restart_between_report }
    ensures decoded { map string_bytes words.now ≡ codes "decode" ∷ codes "file" ∷ []
        → ⟦<SureSource as Source>⟧.left inputs.old.main ≡ Some one_heartbeat
        → result ≡ 0 → ⟦<SureSink as Sink>⟧.sent out.new ≡ Some one_heartbeat_text }
    ensures reported { map string_bytes words.now ≡ codes "dialect" ∷ []
        → result ≡ 0 → ⟦<SureSink as Sink>⟧.sent out.new ≡ Some profile_layouts }
{
    run_alone(
        alloc,
        words,
        inputs,
        out,
        &mut MemClock::new(0),
        &mut Vec::new(alloc),
        &mut Vec::new(alloc),
    )
}

// A command, and the name of a file if it takes one.
fn words_for(alloc: Global, command: &str, has_file: bool) -> Result<Vec<String>, AllocError>
    ensures file { has_file ≡ true
        → IfOk result (λ words. map string_bytes words.items ≡ command.now ∷ codes "file" ∷ []) }
    ensures alone { has_file ≡ false
        → IfOk result (λ words. map string_bytes words.items ≡ command.now ∷ []) }
{
    let mut words = Vec::new(alloc);
    words.push(String::from_str(alloc, command)?)?;
    if !has_file {
        return Ok(words);
    }
    words.push(String::from_str(alloc, "file")?)?;
    Ok(words)
}

fn inputs_over(alloc: Global, main: &[u8]) -> Result<Inputs<SureSource>, AllocError>
    ensures { IfOk result (λ inputs. ⟦<SureSource as Source>⟧.left inputs.main ≡ Some main.now) }
{
    Ok(Inputs {
        main: SureSource::new(main.to_vec(alloc)?),
        defs: SureSource::new(Vec::new(alloc)),
        key: SureSource::new(Vec::new(alloc)),
    })
}

// The status of one of them.
fn status_of(alloc: Global, command: &str, has_file: bool, main: &[u8]) -> Result<u8, AllocError>
    requires one { ((command.now ≡ codes "fleet") × (has_file ≡ true)
        × ((main.now ≡ one_item) ⊎ (main.now ≡ restart_between)))
        ⊎ (((command.now ≡ codes "decode") × (has_file ≡ true) × (main.now ≡ one_heartbeat))
        ⊎ ((command.now ≡ codes "dialect") × (has_file ≡ false))) }
{
    let words = words_for(alloc, command, has_file)?;
    let mut inputs = inputs_over(alloc, main)?;
    let mut out = SureSink::with_room(alloc, 4096)?;
    Ok(run_one(alloc, &words, &mut inputs, &mut out))
}

// The statuses of the four runs.
fn statuses(alloc: Global) -> Result<[u8; 4], AllocError> {
    let uploaded = status_of(alloc, "fleet", true, ONE_ITEM)?;
    let restarted = status_of(alloc, "fleet", true, RESTART_BETWEEN)?;
    let decoded = status_of(alloc, "decode", true, STREAM)?;
    let described = status_of(alloc, "dialect", false, b"")?;
    Ok([uploaded, restarted, decoded, described])
}

#[test]
fn the_contract_alone_reports_what_is_written(rt: HostRuntime) -> Result<(), Fail> {
    assert_eq!(rt; statuses(rt.alloc())?, [0, 0, 0, 0]);
    Ok(())
}
