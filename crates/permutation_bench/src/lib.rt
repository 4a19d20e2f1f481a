// For benchmarks only: the permutation as C can call it.
#![tactic(auto)]

ghost use Rattle.std.specs.Prelude.{◌≡◌};
ghost use Rattle.permutation.specs.State.{at};
ghost use Rattle.permutation.specs.Permutation.{start, add_constant};
ghost use Rattle.permutation_bench.specs.Repeated.{repeated};

// S[0][0] after P6 of the starting state, with seed xored into S[0][0], times over.
#[unsafe(no_mangle)]
pub extern "C" fn bench_p6(seed: u64, times: u64) -> u64
    ensures { result ≡ at (repeated 6 times (add_constant start seed)) 0 0 }
{
    let mut s = permutation::start_state();
    s[0][0] = s[0][0] ^ seed;
    for i in 0..times {
        let t = permutation::p::<6>(s);
        s = t;
    }
    s[0][0]
}
