// Vectors of every search in a cache: each key held, and keys of the gaps on both sides of it.
use neighbours::Spot;
use std::io::{self, Write};

// Where the record closest to a target stands, with no path: its place, or `own`.
fn place<W: Write>(own: &[u8], cache: &[u8], target: &[u8], out: &mut W) -> io::Result<()> {
    let nearest = neighbours::closest_record(own, cache, &[], target).nearest;
    match nearest {
        Err(_) => out.write_all(b"-"),
        Ok(Spot::Own(_)) => out.write_all(b"own"),
        Ok(Spot::Held(i)) => write!(out, "{i}"),
    }
}

// For a key with 0 as its last byte, for the key itself, and for it with 255.
fn three<W: Write>(own: &[u8], cache: &[u8], key: [u8; 32], out: &mut W) -> io::Result<()> {
    let mut target = key;
    target[31] = 0;
    place(own, cache, &target, out)?;
    out.write_all(b",")?;
    place(own, cache, &key, out)?;
    out.write_all(b",")?;
    target[31] = 255;
    place(own, cache, &target, out)
}

// For each record held, up to the first place that is free.
pub(crate) fn searches<W: Write>(own: &[u8], cache: &[u8], out: &mut W) -> io::Result<()> {
    for (i, held) in cache.chunks_exact(100).take(256).enumerate() {
        let Some(key) = held.first_chunk::<32>() else {
            return Ok(());
        };
        if held.get(34).is_none_or(|kind| *kind == 0) {
            return Ok(());
        }
        if 0 < i {
            out.write_all(b" ")?;
        }
        three(own, cache, *key, out)?;
    }
    Ok(())
}
