//! The texts that help a musician.

/// The text that answers `help`: one screen of lines, each of which can be typed as it is.
pub const HELP: &str = "\
rename-sample 0 \"Piano C4\"       # an edit, as in a script\n\
group { trim 0 9 0 } { trim 1 9 0 } # several edits, all of them or none\n\
neutral rename-sample 0 \"C4\"     # an edit of a form that never changes the sound\n\
undo                             # back by one edit\n\
redo                             # forth by one edit\n\
note 44100 0 0 60 100            # starts now: frames, bank, preset, key, velocity\n\
press 0 0 60 100                 # starts now, and is held until it is released\n\
release 0 0 60                   # bank, preset, key\n\
pedal on 0 0                     # holds releases of this preset back, until: pedal off 0 0\n\
silence                          # releases all\n\
stop                             # ends all sound at once\n\
frames 44100                     # the next frames: 44100 are a second\n\
record notes.txt                 # the notes so far, as a note list\n\
voices                           # how many sound, and how many notes are held\n\
meter                            # the peak and the clipped frames since the last meter\n\
save out.sf2 undo.txt            # the bank, and its undo script\n\
save \"my bank.sf2\" \"my undo.txt\" # paths with blanks, or that begin with x\n\
show                             # the bank as lines of text\n\
help                             # these lines\n\
quit                             # the end\n";
