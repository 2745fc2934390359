ghost use Rattle.std.specs.Prelude.{◌≡◌};
ghost use Rattle.xl_tcp.specs.Numbers.{bytes_ahead, bytes_ahead_of_others, each_frame, each_header, epoch_millis, frames_at_once, frames_each_milli, headers_at_once, headers_each_milli, longest_silence, longest_silence_at_first, patience, patience_at_first, patience_when_shown, patience_with_caller, patience_with_greeting, patience_with_known, patience_with_quiet, waits_at_first, waits_for_member};
ghost use Rattle.xl_tcp.specs.declared.callers.TheConstants.{PATIENCE as CALLERS_PATIENCE, PATIENCE_WHEN_SHOWN, QUIET};
ghost use Rattle.xl_tcp.specs.declared.clock.TheConstants.{EPOCH_MILLIS};
ghost use Rattle.xl_tcp.specs.declared.conduct.TheConstants.{EACH_FRAME, EACH_HEADER, FRAMES, FRAMES_EACH_MILLI, HEADERS, HEADERS_EACH_MILLI, PATIENCE, PATIENCE_AT_FIRST, PATIENCE_WITH_GREETING, PATIENCE_WITH_KNOWN, SILENCE, SILENCE_AT_FIRST};
ghost use Rattle.xl_tcp.specs.declared.connection.TheConstants.{MOST_AHEAD, MOST_AHEAD_OF_OTHERS, MOST_WAITS, MOST_WAITS_AT_FIRST};

/// The law of the constants, which has no code: each is the number that the definitions give.
pub fn law_of_constants()
    ensures frame { EACH_FRAME ≡ each_frame }
    ensures frames { FRAMES ≡ frames_at_once }
    ensures frames_each { FRAMES_EACH_MILLI ≡ frames_each_milli }
    ensures header { EACH_HEADER ≡ each_header }
    ensures headers { HEADERS ≡ headers_at_once }
    ensures headers_each { HEADERS_EACH_MILLI ≡ headers_each_milli }
    ensures silence { SILENCE ≡ longest_silence }
    ensures silence_at_first { SILENCE_AT_FIRST ≡ longest_silence_at_first }
    ensures patience { PATIENCE ≡ patience }
    ensures patience_at_first { PATIENCE_AT_FIRST ≡ patience_at_first }
    ensures greeting { PATIENCE_WITH_GREETING ≡ patience_with_greeting }
    ensures known { PATIENCE_WITH_KNOWN ≡ patience_with_known }
    ensures callers { CALLERS_PATIENCE ≡ patience_with_caller }
    ensures shown { PATIENCE_WHEN_SHOWN ≡ patience_when_shown }
    ensures quiet { QUIET ≡ patience_with_quiet }
    ensures waits { MOST_WAITS ≡ waits_for_member }
    ensures waits_at_first { MOST_WAITS_AT_FIRST ≡ waits_at_first }
    ensures ahead { MOST_AHEAD ≡ bytes_ahead }
    ensures ahead_of_others { MOST_AHEAD_OF_OTHERS ≡ bytes_ahead_of_others }
    ensures epoch { EPOCH_MILLIS ≡ epoch_millis }
{}
