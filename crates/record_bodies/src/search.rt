//! Records by their keys.
ghost use Rattle.std.specs.Prelude.{◌≡◌, option_copied, true};
ghost use Rattle.std.specs.FinMap.{find, is_sorted};
ghost use Rattle.shadow_records.specs.Keys.{key_cmp};

use vec_base::{Bytes, ShadowKey};

/// The body of the record with the key, among records by rising keys.
pub fn body<'a>(records: &'a [(ShadowKey, Bytes)], key: &ShadowKey) -> Option<&'a Bytes>
    requires { is_sorted key_cmp records.now ≡ true }
    ensures { option_copied result ≡ find key_cmp key.now records.now }
{
    match records.binary_search_by(|kept| kept.0.cmp(key)) {
        Ok(at) => Some(&records[at].1),
        Err(_) => None,
    }
}
