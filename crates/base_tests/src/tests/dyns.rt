// Words of values in Dyn that take no object.

use object_layout::dyn_words::{bool_dyn, dyn_bool, dyn_int, dyn_is_unit, int_dyn, unit_dyn};

#[test]
fn integers_of_61_bits_stand_behind_a_tag(rt: HostRuntime) {
    let limit = 1_152_921_504_606_846_976;
    let rows: [(i64, Option<u64>); 7] = [
        (5, Some(41)),
        (0, Some(1)),
        (-1, Some(18_446_744_073_709_551_609)),
        (limit - 1, Some(9_223_372_036_854_775_801)),
        (limit, None),
        (-limit, Some(9_223_372_036_854_775_809)),
        (-limit - 1, None),
    ];
    for (n, word) in rows {
        let back = match word {
            Some(word) => dyn_int(word),
            None => Some(n),
        };
        assert!(rt; int_dyn(n) == word && back == Some(n), "{n}");
    }
}

#[test]
fn truth_values_and_unit_stand_behind_tags(rt: HostRuntime) {
    assert!(rt; (bool_dyn(true), bool_dyn(false), unit_dyn()) == (10, 2, 3));
    for (word, truth, is_unit) in [
        (10, Some(true), false),
        (2, Some(false), false),
        (41, None, false),
        (3, None, true),
    ] {
        assert!(rt;
            dyn_bool(word) == truth && dyn_is_unit(word) == is_unit,
            "{word}"
        );
    }
    assert!(rt; dyn_int(10).is_none());
}
