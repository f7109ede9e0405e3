// The numbers of the house layout (document 01, "Blocks"; 02.1, 02.2), each under one name. Those that depend on the
// number of axes are functions of it, which always ask for height: compiled code then asks once.
ghost use Rattle.std.specs.Prelude.{◌≡◌};
ghost use Rattle.geometry.specs.Axes.{KnownAxes};
ghost use Rattle.blocks.specs.Layout.{max_length, directory_kind, tile_kind, entry_size, count_offset, muted_offset};
ghost use Rattle.blocks.specs.Layout.{entries_per_block, site_size, cue_offset, max_sites};

use geometry::padding;

// The axes of a plan town, and of one with height.
pub const PLAN: usize = padding::PLAN;

pub const HEIGHT: usize = padding::HEIGHT;

pub const BLOCK_SIZE: usize = 512;

pub const SYNC_BYTE: u8 = 0xd6;

pub const KIND_AT: usize = 1;

pub const POSITION_AT: usize = 2;

pub const ENTRIES_AT: usize = 4;

pub const TILES_AT: usize = 6;

pub const RESERVED_AT: usize = 8;

pub const PAYLOAD_AT: usize = 16;

pub const CHECK_AT: usize = 510;

pub const PAYLOAD_SIZE: usize = 480;

pub const NUMBER_SIZE: usize = 4;

pub const MAX_TILES: usize = 960;

// Bytes of the longest file.
pub fn max_length(axes: usize) -> usize
    requires { KnownAxes axes }
    ensures { result ≡ max_length axes }
{
    if axes == HEIGHT { 520_704 } else { 512_000 }
}

// Byte 1 of a directory block.
pub fn directory_kind(axes: usize) -> u8
    requires { KnownAxes axes }
    ensures { result ≡ directory_kind axes }
{
    if axes == HEIGHT { 3 } else { 1 }
}

// Byte 1 of a tile.
pub fn tile_kind(axes: usize) -> u8
    requires { KnownAxes axes }
    ensures { result ≡ tile_kind axes }
{
    if axes == HEIGHT { 4 } else { 2 }
}

// Bytes of an entry, and where its count and its muted number stand in it.
pub fn entry_size(axes: usize) -> usize
    requires { KnownAxes axes }
    ensures { result ≡ entry_size axes }
{
    if axes == HEIGHT {
        8 * HEIGHT + 4
    } else {
        8 * PLAN + 4
    }
}

pub fn count_offset(axes: usize) -> usize
    requires { KnownAxes axes }
    ensures { result ≡ count_offset axes }
{
    if axes == HEIGHT { 8 * HEIGHT } else { 8 * PLAN }
}

pub fn muted_offset(axes: usize) -> usize
    requires { KnownAxes axes }
    ensures { result ≡ muted_offset axes }
{
    if axes == HEIGHT {
        8 * HEIGHT + 2
    } else {
        8 * PLAN + 2
    }
}

// How many entries a block holds.
pub fn entries_per_block(axes: usize) -> usize
    requires { KnownAxes axes }
    ensures { result ≡ entries_per_block axes }
{
    if axes == HEIGHT {
        PAYLOAD_SIZE / (8 * HEIGHT + 4)
    } else {
        PAYLOAD_SIZE / (8 * PLAN + 4)
    }
}

// Bytes of a site, and where its cue stands in it.
pub fn site_size(axes: usize) -> usize
    requires { KnownAxes axes }
    ensures { result ≡ site_size axes }
{
    if axes == HEIGHT {
        4 * HEIGHT + 4
    } else {
        4 * PLAN + 4
    }
}

pub fn cue_offset(axes: usize) -> usize
    requires { KnownAxes axes }
    ensures { result ≡ cue_offset axes }
{
    if axes == HEIGHT { 4 * HEIGHT } else { 4 * PLAN }
}

// How many sites a block holds.
pub fn max_sites(axes: usize) -> usize
    requires { KnownAxes axes }
    ensures { result ≡ max_sites axes }
{
    if axes == HEIGHT {
        PAYLOAD_SIZE / (4 * HEIGHT + 4)
    } else {
        PAYLOAD_SIZE / (4 * PLAN + 4)
    }
}
