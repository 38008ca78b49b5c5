// A map's file: its 8,192 bytes, then the total.
#![tactic(auto)]

ghost use Rattle.std.specs.Prelude.{◌≡◌, length};
ghost use Rattle.execution_map.specs.Map.{map_of};
ghost use Rattle.map_file.specs.MapFile.{file_bytes, file_map, is_map_file, map_file_of};

// Whether a file's bytes are a map and its own total.
#[tactic(auto, unfolding(crate::specs::MapFile::is_map_file))]
pub fn is_map(file: &[u8]) -> bool
    ensures { result ≡ is_map_file file.now }
{
    file.len() == 8196
        && execution_map::is_sound(asking::filled(file, 8192), numbers::four_at(file, 8192, 0))
}

// The total that a map's file states.
pub fn total_of(file: &[u8]) -> u32
    ensures { result ≡ (file_map file.now).total }
{
    numbers::four_at(file, 8192, 0)
}

// A map's file states this total, beside the map that it holds.
pub fn put_total(file: &mut [u8], total: u32)
    requires { length file.old ≡ 8196 }
    ensures { file.new ≡ map_file_of (map_of (file_bytes file.old) total) }
{
    numbers::put(&mut file[8192..], total as u64);
}
