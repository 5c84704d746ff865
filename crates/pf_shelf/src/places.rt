// The places of a shelf in memory: a name each, with the room and the bytes of its file.
ghost use Rattle.std.specs.Prelude.{◌≡◌, ◌+◌, ◌-◌, ◌<◌, ◌≤◌, ◌↔◌, ◌++◌, length, min, max, take, drop, true, is_ok, vec_len, All, [], Some, IsTrue, IfSome, IfNone, IfOk, OnOk, OnErr, MatchBool, if◌then◌else◌};
ghost use Rattle.std.specs.Bool.{OnTrue, OnFalse};
ghost use Rattle.std.specs.Option.{option_copied};
ghost use Rattle.pf_shelf.specs.Files.{file_at};
ghost use Rattle.pf_shelf.specs.Memory.{room_at, room_of, file_of, HasNoPlace, HasNoRoom, KeepsOthers, KeepsOtherRooms};
ghost use Rattle.pf_shelf.specs.Places.{files_of, rooms_of, IsPlaceOf, Lacks, IsDistinct, IsRoomy, RoomMade, SamePlaces};

use std::alloc::{AllocError, Global};

// A name with room for its file, which may not be there yet.
#[derive(Drop)]
pub(crate) struct Place {
    pub(crate) name: Vec<u8>,
    pub(crate) room: usize,
    pub(crate) held: bool,
    pub(crate) bytes: Vec<u8>,
}

// Where the place of a name is, if it has one.
fn find(places: &[Place], name: &[u8]) -> Option<usize>
    ensures found { IfSome result (λ i. IsPlaceOf places.now name.now i) }
    ensures within { IfSome result (λ i. i < length places.now) }
    ensures none { IfNone result (Lacks places.now name.now) }
{
    for (i, place) in places.iter().enumerate() {
        if place.name.as_slice() == name {
            return Some(i);
        }
    }
    None
}

// The bytes under a name, if it is held.
pub(crate) fn held_bytes<'a>(places: &'a [Place], name: &[u8]) -> Option<&'a [u8]>
    requires { IsDistinct places.now }
    ensures { option_copied result ≡ file_at (files_of places.now) name.now }
{
    let place = &places[find(places, name)?];
    if place.held {
        Some(place.bytes.as_slice())
    } else {
        None
    }
}

// Copies the file from place `at` on, as far as it and the buffer go.
pub(crate) fn copy_part(file: &[u8], at: u64, buf: &mut [u8]) -> usize
    ensures count { result ≡ min (length buf.old) (length file.now - at) }
    ensures bytes { take result buf.new ≡ take result (drop at file.now) }
{
    let at = at as usize;
    if at >= file.len() {
        return 0;
    }
    let rest = &file[at..];
    let n = buf.len().min(rest.len());
    buf[..n].copy_from_slice(&rest[..n]);
    n
}

// Puts these bytes, which are within the room, in the place of what was there.
fn fill(place: &mut Place, bytes: &[u8])
    requires fits { length bytes.now ≤ place.old.room }
    requires roomy { IsRoomy place.old }
    ensures held { IsTrue place.new.held }
    ensures bytes { place.new.bytes.items ≡ bytes.now }
    ensures name { place.new.name ≡ place.old.name }
    ensures room { place.new.room ≡ place.old.room }
    ensures roomy { IsRoomy place.new }
{
    place.held = true;
    place.bytes.clear();
    let _ = place.bytes.extend_from_slice(bytes);
}

// Appends the bytes to a file that is there and has room for them, and says whether it did.
fn add(place: &mut Place, bytes: &[u8]) -> bool
    requires { IsRoomy place.old }
    ensures fits { IsTrue result
        ↔ ((place.old.held ≡ true) × (length place.old.bytes.items + length bytes.now ≤ place.old.room)) }
    ensures bytes { place.new.bytes.items
        ≡ (if result then place.old.bytes.items ++ bytes.now else place.old.bytes.items) }
    ensures held { place.new.held ≡ place.old.held }
    ensures name { place.new.name ≡ place.old.name }
    ensures room { place.new.room ≡ place.old.room }
    ensures roomy { IsRoomy place.new }
{
    place.held
        && bytes.len() <= place.room - place.bytes.len()
        && place.bytes.extend_from_slice(bytes).is_ok()
}

// Makes the file of a name empty, new or not, and says whether the name has a place.
pub(crate) fn make_empty(places: &mut Vec<Place>, name: &[u8]) -> bool
    requires distinct { IsDistinct places.old.items }
    requires roomy { All IsRoomy places.old.items }
    ensures no_place { MatchBool result
        (¬ HasNoPlace (files_of places.old.items) (rooms_of places.old.items) name.now)
        (HasNoPlace (files_of places.old.items) (rooms_of places.old.items) name.now) }
    ensures empty { OnTrue result (file_at (files_of places.new.items) name.now ≡ Some []) }
    ensures others { KeepsOthers name.now (files_of places.old.items) (files_of places.new.items) }
    ensures same { OnFalse result (files_of places.new.items ≡ files_of places.old.items) }
    ensures rooms { rooms_of places.new.items ≡ rooms_of places.old.items }
    ensures distinct { IsDistinct places.new.items }
    ensures roomy { All IsRoomy places.new.items }
{
    match find(places, name) {
        Some(i) => {
            fill(&mut places[i], &[]);
            true
        }
        None => false,
    }
}

// Appends the bytes to the file of a name, and says whether it is there and has room for them.
pub(crate) fn add_bytes(places: &mut Vec<Place>, name: &[u8], bytes: &[u8]) -> bool
    requires distinct { IsDistinct places.old.items }
    requires roomy { All IsRoomy places.old.items }
    ensures no_room { MatchBool result
        (¬ HasNoRoom (files_of places.old.items) (rooms_of places.old.items) name.now (length bytes.now))
        (HasNoRoom (files_of places.old.items) (rooms_of places.old.items) name.now (length bytes.now)) }
    ensures added { OnTrue result (file_at (files_of places.new.items) name.now
        ≡ Some (file_of (files_of places.old.items) name.now ++ bytes.now)) }
    ensures others { KeepsOthers name.now (files_of places.old.items) (files_of places.new.items) }
    ensures same { OnFalse result (files_of places.new.items ≡ files_of places.old.items) }
    ensures rooms { rooms_of places.new.items ≡ rooms_of places.old.items }
    ensures distinct { IsDistinct places.new.items }
    ensures roomy { All IsRoomy places.new.items }
{
    match find(places, name) {
        Some(i) => add(&mut places[i], bytes),
        None => false,
    }
}

// Puts a file under the name, with room for its own bytes.
pub(crate) fn put_bytes(
    alloc: Global,
    places: &mut Vec<Place>,
    name: &[u8],
    bytes: &[u8],
) -> Result<(), AllocError>
    requires distinct { IsDistinct places.old.items }
    requires roomy { All IsRoomy places.old.items }
    ensures put { OnOk result (file_at (files_of places.new.items) name.now ≡ Some bytes.now) }
    ensures others { KeepsOthers name.now (files_of places.old.items) (files_of places.new.items) }
    ensures room { OnOk result (room_at (rooms_of places.new.items) name.now
        ≡ Some (max (room_of (rooms_of places.old.items) name.now) (length bytes.now))) }
    ensures other_rooms { KeepsOtherRooms name.now (rooms_of places.old.items) (rooms_of places.new.items) }
    ensures err { OnErr result (SamePlaces places.old.items places.new.items) }
    ensures distinct { IsDistinct places.new.items }
    ensures roomy { All IsRoomy places.new.items }
{
    let i = make_room(alloc, places, name, bytes.len())?;
    fill(&mut places[i], bytes);
    Ok(())
}

// Makes room for so many bytes under the name, and says where its place is.
pub(crate) fn make_room(
    alloc: Global,
    places: &mut Vec<Place>,
    name: &[u8],
    room: usize,
) -> Result<usize, AllocError>
    requires distinct { IsDistinct places.old.items }
    requires roomy { All IsRoomy places.old.items }
    ensures ok { IfOk result (λ i. RoomMade places.old.items places.new.items name.now room i) }
    ensures within { IfOk result (λ i. i < vec_len places.new) }
    ensures err { OnErr result (SamePlaces places.old.items places.new.items) }
    ensures distinct { IsDistinct places.new.items }
    ensures roomy { All IsRoomy places.new.items }
{
    match find(places, name) {
        Some(i) => {
            widen(&mut places[i], room)?;
            Ok(i)
        }
        None => {
            let i = places.len();
            let name = Vec::from_slice(alloc, name)?;
            let bytes = Vec::with_capacity(alloc, room)?;
            places.push(Place {
                name,
                room,
                held: false,
                bytes,
            })?;
            Ok(i)
        }
    }
}

// Makes the room of a place at least this.
fn widen(place: &mut Place, room: usize) -> Result<(), AllocError>
    requires { IsRoomy place.old }
    ensures room { place.new.room ≡ (if is_ok result then max place.old.room room else place.old.room) }
    ensures held { place.new.held ≡ place.old.held }
    ensures name { place.new.name ≡ place.old.name }
    ensures bytes { place.new.bytes.items ≡ place.old.bytes.items }
    ensures roomy { IsRoomy place.new }
{
    let more = room.saturating_sub(place.bytes.len());
    place.bytes.reserve_exact(more)?;
    place.room = place.room.max(room);
    Ok(())
}
