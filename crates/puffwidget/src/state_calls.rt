// The calls on the state alone, for C: `capi_state` by its symbols.

ghost use Rattle.std.specs.Prelude.{◌≡◌};
ghost use Rattle.capi.specs.Api.{told, limit_set, limit_read, rows_buffered, completed_flag, empty_flag};

// The limit set to so many rows, or unset where `set` is 0: nothing is refused, and only the limit's words change. 1 where there are not 304 bytes.
#[unsafe(no_mangle)]
pub extern "C" fn pw_set_biggest_coalesce_batch_size(state: &mut [u8], set: u32, rows: u32) -> u32
    ensures { told result state.new ≡ limit_set set rows state.old }
{
    capi_state::pw_set_biggest_coalesce_batch_size(state, set, rows)
}

// The limit: 1 in the upper 32 bits where one is set, and its rows in the lower.
#[unsafe(no_mangle)]
pub extern "C" fn pw_biggest_coalesce_batch_size(state: &[u8]) -> u64
    ensures { result ≡ limit_read state.now }
{
    capi_state::pw_biggest_coalesce_batch_size(state)
}

// The rows buffered.
#[unsafe(no_mangle)]
pub extern "C" fn pw_get_buffered_rows(state: &[u8]) -> u32
    ensures { result ≡ rows_buffered state.now }
{
    capi_state::pw_get_buffered_rows(state)
}

// 1 where a batch is queued, else 0.
#[unsafe(no_mangle)]
pub extern "C" fn pw_has_completed_batch(state: &[u8]) -> u32
    ensures { result ≡ completed_flag state.now }
{
    capi_state::pw_has_completed_batch(state)
}

// 1 where nothing is buffered or queued, else 0.
#[unsafe(no_mangle)]
pub extern "C" fn pw_is_empty(state: &[u8]) -> u32
    ensures { result ≡ empty_flag state.now }
{
    capi_state::pw_is_empty(state)
}
