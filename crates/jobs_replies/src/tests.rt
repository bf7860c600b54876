// What a call prints, beside the texts of docs/TEXTS.md.
use crate::plots::plot_reply;

const TABLE: &[u8] = b"y re im p\n\
0 0000000000000000 0000000000000000 0000000000000000\n\
1 3ff0000000000000 0000000000000000 3fe0000000000000\n\
2 0000000000000000 3ff0000000000000 3fe0000000000000\n\
3 0000000000000000 0000000000000000 0000000000000000\n";

// The list -ZZ, XY.
#[test]
fn prints_the_table_of_a_list(rt: HostRuntime) {
    let mut signs = [0u8; 64];
    let mut z = [0u64; 64];
    let mut x = [0u64; 64];
    signs[0] = 1;
    z[0] = 3;
    z[1] = 2;
    x[1] = 3;
    let mut out = [0u8; 57354];
    let end = plot_reply(Ok(2), &signs, &z, &x, &mut out);
    assert!(rt; out.starts_with(TABLE));
    assert_eq!(rt; end, TABLE.len());
}

// A caller who holds no count may pass any number in the `Err`.
#[test]
fn refuses_a_text_without_the_form(rt: HostRuntime) {
    let held: Option<usize> = None;
    for counted in [0, 1, 64, 65, 66, usize::MAX] {
        let mut out = [0u8; 57354];
        let end = plot_reply(held.ok_or(counted), &[0; 64], &[3; 64], &[0; 64], &mut out);
        assert_eq!(rt; end, 10, "{counted}");
        assert!(rt; out.starts_with(b"refused 1\n"), "{counted}");
    }
}
