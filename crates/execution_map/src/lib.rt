// The execution map: a bit for each address, set where an executed instruction began, and the running total of its ones.
#![tactic(auto)]

ghost use Rattle.std.specs.Prelude.{◌≡◌, true, ◌+◌, ◌<◌, ◌^◌, length};
ghost use Rattle.execution_map.specs.Map.{map_of, has_run, marked, begun_at, ones_of, is_sound, told_search, unrun_answer};

// There is no map: it has not its 8,192 bytes, or it stands in a file whose total is not its own.
#[derive(Clone, Copy)]
pub struct WrongMap;

// Whether an instruction began at this address; past the map's end all count as set.
#[tactic(auto, using(crate::proofs::Laws::ran_within, crate::proofs::Laws::ran_past))]
pub fn has_run(map: &[u8], at: u16) -> bool
    ensures { result ≡ has_run map.now at }
{
    let i = (at / 8) as usize;
    if i < map.len() {
        return (map[i] >> (at % 8)) % 2 == 1;
    }
    true
}

// An instruction begins at this address: its bit is set, and the total grows by one where it was clear.
#[tactic(auto, using(crate::proofs::Laws::ran_within, crate::proofs::Laws::ran_past, crate::proofs::Laws::marked_again, crate::proofs::Laws::marked_code))]
fn mark(map: &mut [u8], total: &mut u32, at: u16)
    requires { total.old + 1 < 2 ^ 32 }
    ensures { map_of map.new total.new ≡ marked at (map_of map.old total.old) }
{
    let i = (at / 8) as usize;
    if i >= map.len() {
        return;
    }
    let byte = map[i];
    if (byte >> (at % 8)) % 2 == 1 {
        return;
    }
    map[i] = byte | (1 << (at % 8));
    *total += 1;
}

// .. where the map is kept.
#[tactic(auto, unfolding(crate::specs::Map::begun_at))]
pub fn begin(kept: bool, map: &mut [u8], total: &mut u32, at: u16)
    requires { kept ≡ true → total.old + 1 < 2 ^ 32 }
    ensures { map_of map.new total.new ≡ begun_at kept at (map_of map.old total.old) }
{
    if kept {
        mark(map, total, at);
    }
}

// The number of ones in the whole map.
fn ones(map: &[u8]) -> u64
    requires { length map.now ≡ 8192 }
    ensures { result ≡ ones_of map.now }
{
    let mut sum = 0;
    for byte in map {
        sum += byte.count_ones() as u64;
    }
    sum
}

// Whether the map has its length, and the total stated is its own.
#[tactic(auto, unfolding(crate::specs::Map::is_sound))]
pub fn is_sound(map: &[u8], total: u32) -> bool
    ensures { result ≡ is_sound (map_of map.now total) }
{
    map.len() == 8192 && ones(map) == total as u64
}

// The first address from `first` to `last`, both included, at which no instruction began.
pub fn first_unrun(map: &[u8], first: u16, last: u16) -> Result<Option<u16>, WrongMap>
    ensures { told_search result ≡ unrun_answer map.now first last }
{
    if map.len() != 8192 {
        return Err(WrongMap);
    }
    for at in first..=last {
        if !has_run(map, at) {
            return Ok(Some(at));
        }
    }
    Ok(None)
}
