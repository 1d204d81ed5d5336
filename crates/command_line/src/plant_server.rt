//! The simulator of inverters as a program: a plant behind a loopback port.
ghost use Rattle.std.specs.Prelude.{◌⊎◌, ℕ, List, Option, map, string_bytes};
ghost use Rattle.commands.specs.Report.{listening_line, no_memory_line};
ghost use Rattle.commands.specs.Told.{IsTold, refused_with};
ghost use Rattle.command_files.specs.Printing.{Fails};
ghost use Rattle.command_line.specs.Simulated.{ServesMany, ServesOne, ServesStream, Simulates};

use command_files::{link_over, loopback, tell_unserved};
use commands::{listening, plant_told, tell_no_memory, tell_unlinked, write_lines};
use inverter_sim::{Plant, serve_link};
use modbus_frame::LinkFault;
use refusal_notes::Notes;
use service_loop::PlantDoor;
use std::alloc::Global;
use std::io::{Read, Write};
use std::net::{Net, OpenListener, OpenStream, TcpListener};
use std::time::Clock;

/// Where a plant is served, and for whom.
#[derive(Clone, Copy)]
pub struct PlantPort {
    /// The loopback port; a free one where that is 0.
    pub port: u16,
    /// How many connections are served, several at once, without an end where that is 0; where it isn't said, one.
    pub connections: Option<u64>,
}

/// Serves the plant of a plant file on a loopback port, to the end of its connections: prints `listening PORT` first. The
/// notes have the file and the definitions. Gives the status: 0, 1 for a refusal or a failed write, 3 where the link
/// failed. What several connections carry no contract says; there slow devices answer late, which over one they don't.
pub fn simulate<R: Net + Clock + Eprint + AllocGlobal, W: Write>(
    rt: &R,
    alloc: Global,
    notes: &Notes<'_>,
    at: PlantPort,
    out: &mut W,
) -> u8
    ensures { Simulates notes.now.plant.now (map string_bytes notes.now.defs.now) at.connections (W.contents out.old) (W.contents out.new) result }
{
    match plant_told(alloc, notes.plant, notes.defs, out) {
        Ok(mut plant) => match at.connections {
            Some(connections) => { serve_many(rt, alloc, notes, plant, at.port, connections, out) }
            None => serve_first(rt, alloc, notes, &mut plant, at.port, out),
        },
        Err(refused) => {
            notes.explain(rt, &refused.cause);
            refused.status
        }
    }
}

/// Serves the plant to so many connections, once its port is printed.
fn serve_many<R: Net + Clock + Eprint + AllocGlobal, W: Write>(
    rt: &R,
    alloc: Global,
    notes: &Notes<'_>,
    plant: Plant,
    port: u16,
    connections: u64,
    out: &mut W,
) -> u8
    ensures { ServesMany (W.contents out.old) (W.contents out.new) result ⊎ Fails (W.contents out.old) (W.contents out.new) result }
{
    match PlantDoor::open(rt, alloc, loopback(port), connections) {
        Ok(mut door) => serve_at_door(rt, alloc, &mut door, plant, out),
        Err(fault) => tell_unserved(rt, alloc, notes, loopback(port), fault.kind(), out),
    }
}

/// Prints the port of a door, and serves those who come.
fn serve_at_door<R: Clock, W: Write>(
    rt: &R,
    alloc: Global,
    door: &mut PlantDoor,
    plant: Plant,
    out: &mut W,
) -> u8
    ensures { ServesMany (W.contents out.old) (W.contents out.new) result ⊎ Fails (W.contents out.old) (W.contents out.new) result }
{
    let Ok(address) = door.address() else {
        return tell_unlinked(alloc, LinkFault::Read, out);
    };
    match tell_port(alloc, address.port(), out) {
        0 => match door.serve(rt, plant) {
            Ok(()) => 0,
            Err(_) => tell_unlinked(alloc, LinkFault::Read, out),
        },
        status => status,
    }
}

/// Serves the plant on a port, for one connection to its end.
fn serve_first<R: Net + Eprint + AllocGlobal, W: Write>(
    rt: &R,
    alloc: Global,
    notes: &Notes<'_>,
    plant: &mut Plant,
    port: u16,
    out: &mut W,
) -> u8
    ensures { ServesOne plant.old (W.contents out.old) (W.contents out.new) result ⊎ Fails (W.contents out.old) (W.contents out.new) result }
{
    match TcpListener::bind(rt, loopback(port)) {
        Ok(listener) => serve_listener(alloc, &listener, plant, out),
        Err(fault) if port > 0 => {
            tell_unserved(rt, alloc, notes, loopback(port), fault.kind(), out)
        }
        Err(_) => tell_unlinked(alloc, LinkFault::Read, out),
    }
}

/// Prints the listener's port, and serves one connection.
fn serve_listener<L: OpenListener, W: Write>(
    alloc: Global,
    listener: &L,
    plant: &mut Plant,
    out: &mut W,
) -> u8
where
    L::Stream: Read + Write + OpenStream,
    ensures { ServesOne plant.old (W.contents out.old) (W.contents out.new) result ⊎ Fails (W.contents out.old) (W.contents out.new) result }
{
    let Ok(address) = listener.local_addr() else {
        return tell_unlinked(alloc, LinkFault::Read, out);
    };
    match tell_port(alloc, address.port(), out) {
        0 => match listener.accept() {
            Ok((stream, _)) => serve_stream(alloc, stream, plant, out),
            Err(_) => tell_unlinked(alloc, LinkFault::Read, out),
        },
        status => status,
    }
}

/// Writes the line that names a port, and gives the status.
fn tell_port<W: Write>(alloc: Global, port: u16, out: &mut W) -> u8
    ensures { IsTold (W.contents out.old) (W.contents out.new) (record { lines = listening_line port; status = 0 }) result
        ⊎ IsTold (W.contents out.old) (W.contents out.new) (refused_with no_memory_line) result }
{
    match listening(alloc, port) {
        Ok(line) => write_lines(out, line.as_bytes(), 0),
        Err(_) => tell_no_memory(out),
    }
}

/// Serves a connection to its end; nothing was sent on it before.
fn serve_stream<S: Read + Write + OpenStream + Drop, W: Write>(
    alloc: Global,
    stream: S,
    plant: &mut Plant,
    out: &mut W,
) -> u8
    ensures { ServesStream (S.contents stream) plant.old (W.contents out.old) (W.contents out.new) result }
{
    match link_over(stream) {
        Ok(mut link) => match serve_link(&mut link, plant) {
            Ok(_) => 0,
            Err(fault) => tell_unlinked(alloc, fault, out),
        },
        Err(_) => tell_unlinked(alloc, LinkFault::Read, out),
    }
}
