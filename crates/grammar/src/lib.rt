// The grammar of seals: legal contents and their published form. All of it stands in specs/; it knows no reader and no writer.
#![tactic(auto)]
