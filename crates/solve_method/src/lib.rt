// The parts of a solve as one method, of positions and of velocities, and where each refusal has its place. Definitions and their laws; there is no code.

#![tactic(auto)]
