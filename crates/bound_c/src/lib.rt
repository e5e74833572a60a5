// The bound and the least counter count for C: the static library over crate bound. include/row_tracker.h declares both.
#![tactic(auto)]

ghost use Rattle.std.specs.Prelude.{◌≡◌};
ghost use Rattle.bound.specs.Answers.{bound_answer, least_answer, signed, settings_of};

use device::Settings;

// The bound: H, or refusal k as -k.
#[unsafe(no_mangle)]
#[tactic(auto, using(bound::proofs::Answers::small_bound_answer), unfolding(bound::specs::Answers::settings_of))]
pub extern "C" fn row_tracker_bound(
    rows: u32,
    blast_diameter: u32,
    volume: u32,
    counters: u32,
    interval: u32,
    window: u32,
    block: u32,
) -> i64
    ensures { result ≡ signed (bound_answer (settings_of rows blast_diameter volume counters interval window block)) }
{
    bound::signed_number(bound::bound(Settings {
        rows,
        blast_diameter,
        volume,
        counters,
        interval,
        window,
        block,
    }))
}

// The least counter count: the count, or refusal k as -k.
#[unsafe(no_mangle)]
#[tactic(auto, using(bound::proofs::Answers::small_least_answer), unfolding(bound::specs::Answers::settings_of))]
pub extern "C" fn row_tracker_least_counters(
    rows: u32,
    blast_diameter: u32,
    volume: u32,
    interval: u32,
    window: u32,
    block: u32,
    threshold: u64,
) -> i64
    ensures { result ≡ signed (least_answer (settings_of rows blast_diameter volume 0 interval window block) threshold) }
{
    bound::signed_number(bound::least_counters(
        Settings {
            rows,
            blast_diameter,
            volume,
            counters: 0,
            interval,
            window,
            block,
        },
        threshold,
    ))
}
