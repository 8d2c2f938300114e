use crate::{Descriptor, following, left_of, read_row, whole_at};

/// A configuration descriptor, an interface with its endpoint, the same in alternate setting 1 with a descriptor of
/// a class, and a second interface; worked out by hand from USB 2.0, 9.6.3 to 9.6.6.
const CONFIG: [u8; 53] = [
    9, 2, 53, 0, 2, 1, 0, 128, 50, // the configuration
    9, 4, 0, 0, 1, 8, 6, 80, 0, // at 9
    7, 5, 129, 2, 64, 0, 0, // at 18
    9, 4, 0, 1, 1, 8, 6, 80, 0, // at 25
    3, 36, 5, // at 34
    7, 5, 2, 3, 8, 1, 4, // at 37
    9, 4, 1, 0, 0, 255, 0, 0, 0, // at 44
];

/// The places of descriptors.
fn places(row: &[Descriptor], places: &[u16]) -> bool {
    row.len() == places.len() && row.iter().zip(places).all(|(d, place)| d.at == *place)
}

#[test]
fn rows(rt: HostRuntime) {
    let (row, end) = read_row(&CONFIG);
    assert_eq!(rt; end, 53);
    assert!(rt; places(row.as_slice(), &[9, 18, 25, 34, 37, 44]));
    assert!(rt; places(left_of(row.as_slice()).as_slice(), &[9, 18, 44]));
}

#[test]
fn whole_descriptors(rt: HostRuntime) {
    assert!(rt; whole_at(&CONFIG, 34).is_some_and(|d| d == [3, 36, 5].as_slice()));
    assert!(rt; whole_at(&CONFIG[..36], 34).is_none());
    assert!(rt; whole_at(&CONFIG, 53).is_none() && whole_at(&CONFIG, 54).is_none());
}

#[test]
fn ends(rt: HostRuntime) {
    for (config, row_end) in [
        (&CONFIG[..9], 9),
        (&CONFIG[..17], 9),
        (&CONFIG[..18], 18),
        (&CONFIG[..36], 34),
    ] {
        let (_, end) = read_row(config);
        assert_eq!(rt; end, row_end);
    }
}

#[test]
fn kinds(rt: HostRuntime) {
    let (row, _) = read_row(&CONFIG);
    let row = row.as_slice();
    assert!(rt; row[0].is_of_protocol(8, 6, 80) && !row[0].is_of_protocol(8, 6, 81));
    assert!(rt; row[1].is_in_of(2) && !row[1].is_out_of(2) && row[1].endpoint_number() == 1);
    assert!(rt; row[4].is_out_of(3) && row[4].word(4) == 264);
    assert_eq!(rt; row[3].head[8], 0);
    assert!(rt; places(following(&row[1..]), &[18]) && following(&row[5..]).is_empty());
}
