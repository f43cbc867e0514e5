// The C layer, the calls on the state alone, which refuse nothing. docs/HOST.md has each signature; capi/specs/Api.antt says what each answers and leaves, on any bytes.
#![tactic(auto)]

ghost use Rattle.std.specs.Prelude.{◌≡◌};
ghost use Rattle.capi.specs.Api.{told, limit_set, limit_read, rows_buffered, completed_flag, empty_flag};

use codes::STATE_BYTES;

// The limit set to so many rows, or unset where `set` is 0: nothing is refused, and only the limit's words change. 1 where there are not 304 bytes.
pub fn pw_set_biggest_coalesce_batch_size(state: &mut [u8], set: u32, rows: u32) -> u32
    ensures { told result state.new ≡ limit_set set rows state.old }
{
    if state.len() == STATE_BYTES {
        encoding::set_limit(state, decoding::limit_of(set, rows));
        0
    } else {
        1
    }
}

// The limit: 1 in the upper 32 bits where one is set, and its rows in the lower.
pub fn pw_biggest_coalesce_batch_size(state: &[u8]) -> u64
    ensures { result ≡ limit_read state.now }
{
    let s = decoding::decode(state).state;
    crossing::limit_pair(queries::biggest_coalesce_batch_size(s))
}

// The rows buffered.
pub fn pw_get_buffered_rows(state: &[u8]) -> u32
    ensures { result ≡ rows_buffered state.now }
{
    let s = decoding::decode(state).state;
    queries::get_buffered_rows(s).0
}

// 1 where a batch is queued, else 0.
pub fn pw_has_completed_batch(state: &[u8]) -> u32
    ensures { result ≡ completed_flag state.now }
{
    let s = decoding::decode(state).state;
    u32::from(queries::has_completed_batch(s))
}

// 1 where nothing is buffered or queued, else 0.
pub fn pw_is_empty(state: &[u8]) -> u32
    ensures { result ≡ empty_flag state.now }
{
    let s = decoding::decode(state).state;
    u32::from(queries::is_empty(s))
}
