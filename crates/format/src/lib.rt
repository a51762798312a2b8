// The ground of the definitions: byte strings, numbers in bytes, parts put together, lent buffers. All of it stands in specs/.
#![tactic(auto)]
