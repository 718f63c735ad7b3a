// Records of a cache in form.

pub(crate) type Record = [u8; record::RECORD_LEN];

// How many places have a record: a record has one address, and a free place none.
pub(crate) fn count(cache: &[u8]) -> usize {
    let (places, _) = cache.as_chunks::<{ record::RECORD_LEN }>();
    let addresses = places.iter().filter_map(|place| place.get(34));
    addresses.filter(|addresses| **addresses != 0).count()
}

// The record of a key, if it is held.
pub(crate) fn of_key<'a>(cache: &'a [u8], key: &[u8]) -> Option<&'a Record> {
    let (places, _) = cache.as_chunks::<{ record::RECORD_LEN }>();
    places.iter().find(|place| place.get(..32) == Some(key))
}
