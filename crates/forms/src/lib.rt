// The forms of the bracket text: what each holds, how it is spelled, and what it is for a text to be refused at a byte. Theory, and no code.
#![tactic(auto)]
