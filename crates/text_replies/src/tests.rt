// What a call prints, beside the texts of docs/TEXTS.md.
use crate::list_reply;

const RECORD: &[u8] =
    b"qubit code neighbours used\n0 0 0000000000000002 0\n1 8 0000000000000001 0\n";

// The list XX, ZZ.
#[test]
fn prints_the_record_of_a_list(rt: HostRuntime) {
    let mut z = [0u64; 64];
    let mut x = [0u64; 64];
    x[0] = 3;
    z[1] = 3;
    let mut out = [0u8; 2048];
    let end = list_reply(Ok(2), &[0; 64], &z, &x, &mut out);
    assert!(rt; out.starts_with(RECORD));
    assert_eq!(rt; end, RECORD.len());
}

// A caller who holds no count may pass any number in the `Err`.
#[test]
fn refuses_a_text_without_the_form(rt: HostRuntime) {
    let held: Option<usize> = None;
    for counted in [0, 1, 64, 65, 66, usize::MAX] {
        let mut out = [0u8; 2048];
        let end = list_reply(held.ok_or(counted), &[0; 64], &[3; 64], &[0; 64], &mut out);
        assert_eq!(rt; end, 10, "{counted}");
        assert!(rt; out.starts_with(b"refused 1\n"), "{counted}");
    }
}
