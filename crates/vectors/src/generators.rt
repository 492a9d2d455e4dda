// The first outputs of a generator, whose step gives the state after it and an output.
pub fn first<const N: usize, S: Copy, F: Fn(S) -> (S, u64)>(mut state: S, step: F) -> [u64; N]
    requires { F.IsAlwaysCallable step }
{
    let mut outputs = [0; N];
    for output in outputs.iter_mut() {
        let (after, value) = step(state);
        *output = value;
        state = after;
    }
    outputs
}
