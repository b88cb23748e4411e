//! What no clause says of the cache: the victims of accesses to one set, and the numbers of the last bits of its five arrays.
//!
//! The victim is the invalid way of least number; else for one way way 0, for two the way of node 0, and for four the way of
//! node 1 where node 0 is 0, and 2 plus node 2 where it is 1. After a use of way w, node 0 of two ways is 1 - w; of four, node 0
//! is 1 and node 1 is 1 - w for w below 2, else node 0 is 0 and node 2 is 3 - w.
ghost use Rattle.wb_cache.specs.Bits.{IsCache};

use bit_field::{Place, Shape, Structure, bits_in, is_shape};
use elf_fixture::{THREE, flat};
use elf_load::{Image, load};
use std::alloc::Global;
use std::process::Abort;
use std::test::Fail;
use wb_cache::Cache;

fn three(alloc: Global) -> Result<Image, Fail> {
    Ok(load(alloc, &flat(alloc, &THREE)?, 0x10_0000)?)
}

/// An access to a line, and the way where it is read or filled.
struct Access(u32, u32);

static OF_ONE_WAY: [Access; 4] = [Access(3, 0), Access(19, 0), Access(19, 0), Access(3, 0)];

static OF_TWO_WAYS: [Access; 7] = [
    Access(5, 0),
    Access(37, 1),
    Access(5, 0),
    Access(69, 1),
    Access(101, 0),
    Access(5, 1),
    Access(101, 0),
];

static OF_FOUR_WAYS: [Access; 11] = [
    Access(2, 0),
    Access(18, 1),
    Access(34, 2),
    Access(50, 3),
    Access(2, 0),
    Access(66, 2),
    Access(82, 1),
    Access(34, 3),
    Access(98, 0),
    Access(66, 2),
    Access(18, 1),
];

/// The way where word 0 of a line is read, or filled where it misses.
fn way_used(
    rt: &impl Abort,
    cache: &mut Cache,
    line: u32,
    image: &Image,
    memory: &mut [u8],
) -> u32 {
    if let Some(way) = cache.lookup(line) {
        assert!(rt; cache.read(line, 0).is_some());
        return way;
    }
    let way = cache.victim(line % cache.sets());
    assert!(rt; line < 1 << 28);
    assert!(rt; memory.len() == image.ram().len());
    cache.refill(line, image, memory);
    way
}

/// Accesses to one set of an empty cache.
fn check_ways(
    rt: &impl Abort,
    alloc: Global,
    image: &Image,
    shape: &Shape,
    accesses: &[Access],
) -> Result<(), Fail> {
    let mut memory = Vec::from_slice(alloc, image.ram())?;
    assert!(rt; is_shape(shape));
    let mut cache = Cache::shaped(alloc, shape)?;
    for row in accesses {
        assert!(rt; way_used(rt, &mut cache, row.0, image, &mut memory) == row.1);
    }
    Ok(())
}

const fn shape(mib: u8, sets: u16, ways: u8) -> Shape {
    Shape { mib, sets, ways }
}

#[test]
fn ways_in_order(rt: HostRuntime) -> Result<(), Fail> {
    let alloc = rt.alloc();
    let image = three(alloc)?;
    check_ways(&rt, alloc, &image, &shape(1, 16, 1), &OF_ONE_WAY)?;
    check_ways(&rt, alloc, &image, &shape(1, 32, 2), &OF_TWO_WAYS)?;
    check_ways(&rt, alloc, &image, &shape(1, 16, 4), &OF_FOUR_WAYS)
}

fn flip(rt: &impl Abort, cache: &mut Cache, structure: Structure, bit: u32)
    requires { IsCache structure }
{
    cache.is_cache();
    assert!(rt; bit < bits_in(structure, &cache.shape()));
    cache.flip(&Place { structure, bit });
}

/// The last set of a cache: its first and its last slot, and the last bits of the last slot's tag and data.
struct Corner(u32, u32, u32, u32);

/// A bit of nodes to flip, and the victim after it.
struct Turned(u32, u32);

/// The last set of a cache is whole: all its ways are valid, and the last one is dirty, with the highest bits of its tag and its
/// data set. That of the tag is bit 31 of the address, and bit 27 of the line.
fn is_last_set(cache: &Cache) -> bool {
    let (sets, ways) = (cache.sets(), cache.ways());
    if sets < 2 || sets > 128 || ways < 1 {
        return false;
    }
    let (set, way) = (sets - 1, ways - 1);
    cache.valid(set, way)
        && !cache.valid(set - 1, way)
        && cache.dirty(set, way)
        && cache.lookup((1 << 27) + set) == Some(way)
        && cache.byte((1 << 31) + 16 * set + 15) == Some(0x80)
}

/// Whether this is the victim of the last set.
fn is_victim(cache: &Cache, way: u32) -> bool {
    cache.victim(cache.sets() - 1) == way
}

fn check_corner(
    rt: &impl Abort,
    alloc: Global,
    shape: &Shape,
    corner: &Corner,
    nodes: &[Turned],
) -> Result<(), Fail> {
    assert!(rt; is_shape(shape));
    let mut cache = Cache::shaped(alloc, shape)?;
    set_corner(rt, &mut cache, corner);
    assert!(rt; is_last_set(&cache));
    for row in nodes {
        flip(rt, &mut cache, Structure::CLru, row.0);
        assert!(rt; is_victim(&cache, row.1));
    }
    Ok(())
}

/// Makes the ways of the last set valid, and sets the last bits of its last slot.
fn set_corner(rt: &impl Abort, cache: &mut Cache, corner: &Corner) {
    for slot in corner.0..=corner.1 {
        flip(rt, cache, Structure::CValid, slot);
    }
    flip(rt, cache, Structure::CDirty, corner.1);
    flip(rt, cache, Structure::CTag, corner.2);
    flip(rt, cache, Structure::CData, corner.3);
}

static OF_TWO_NODES: [Turned; 2] = [Turned(31, 1), Turned(31, 0)];

static OF_THREE_NODES: [Turned; 4] = [
    Turned(381, 2),
    Turned(383, 3),
    Turned(381, 0),
    Turned(382, 1),
];

#[test]
fn last_bits(rt: HostRuntime) -> Result<(), Fail> {
    let alloc = rt.alloc();
    let (one, two, four) = (shape(1, 16, 1), shape(1, 32, 2), shape(16, 128, 4));
    check_corner(&rt, alloc, &one, &Corner(15, 15, 383, 2047), &[])?;
    check_corner(&rt, alloc, &two, &Corner(62, 63, 1471, 8191), &OF_TWO_NODES)?;
    check_corner(
        &rt,
        alloc,
        &four,
        &Corner(508, 511, 10751, 65535),
        &OF_THREE_NODES,
    )
}

#[test]
fn lanes_written(rt: HostRuntime) -> Result<(), Fail> {
    let mut cache = Cache::new(rt.alloc())?;
    assert!(rt; cache.write(0, 1, 15, 7) == None);
    flip(&rt, &mut cache, Structure::CValid, 0);
    assert!(rt; cache.write(0, 1, 0b0110, 0xAABB_CCDD) == Some(0));
    assert!(rt; cache.read(0, 1) == Some(0x00BB_CC00));
    Ok(())
}
