// What holds of every step, by the definitions alone.
ghost use Rattle.std.specs.Prelude.{◌≡◌, ◌<◌, ◌≤◌, ◌++◌, ◌∷◌, [], ℕ, List, length, is_some, IsTrue, slice_get, Some};
ghost use Rattle.std.specs.Prelude.{None};
ghost use Rattle.std.specs.List.{All};
ghost use Rattle.mav_names.specs.declared.names.Name.{Name};
ghost use Rattle.mav_names.specs.declared.names.Stream.{Stream};
ghost use Rattle.mav_messages.specs.declared.messages.Message.{Message};
ghost use Rattle.mav_messages.specs.declared.messages.Message.TheVariants.{ParamValue as Tells};
ghost use Rattle.mav_messages.specs.declared.params.ParamValue.{ParamValue};
ghost use Rattle.param_proto.specs.declared.params.Param.{Param};
ghost use Rattle.param_proto.specs.Server.{ServerState, new_server, server_step, taken_from, most_params};
ghost use Rattle.param_proto.specs.Client.{ClientState, All_values, known_values, rests, reads, sets, lists};
ghost use Rattle.param_proto.specs.Client.{client_step, client_tick};
ghost use Rattle.param_proto.specs.Laws.{ListEvent, Hears, after_all, latest, value_at};
ghost use Rattle.param_proto.specs.Ranges.{IdInRange, ParamInRange, ServerInRange, StreamInRange, ClientInRange};
ghost use Rattle.param_proto.specs.Ranges.{StepInRange};

/// A server of parameters in range stays in range, with all its answers, whatever the messages are.
pub fn every_server()
    ensures new { (params : List Param) → length params ≤ most_params → All ParamInRange params
        → ServerInRange (new_server params) }
    ensures step { (s : ServerState) → ServerInRange s → (me : Name) → (m : Message)
        → ServerInRange (server_step s me m) }
    ensures taken { (s : ServerState) → ServerInRange s → ServerInRange (taken_from s) }
{}

/// A client whose operation is in range stays in range and sends messages in range, whatever it takes.
pub fn every_client()
    ensures read { (c : ClientState) → (drone : Stream) → StreamInRange drone → (id : List ℕ) → IdInRange id
        → StepInRange (reads c drone id) }
    ensures set { (c : ClientState) → (drone : Stream) → StreamInRange drone → (p : Param) → ParamInRange p
        → StepInRange (sets c drone p) }
    ensures list { (c : ClientState) → (drone : Stream) → StreamInRange drone → StepInRange (lists c drone) }
    ensures step { (c : ClientState) → ClientInRange c → (from : Stream) → (m : Message)
        → StepInRange (client_step c from m) }
    ensures tick { (c : ClientState) → ClientInRange c → StepInRange (client_tick c) }
{}

/// A client with no open operation ignores every message and every tick.
pub fn every_idle_client()
    ensures message { (c : ClientState) → c.operation ≡ None → (from : Stream) → (m : Message)
        → client_step c from m ≡ rests c }
    ensures tick { (c : ClientState) → c.operation ≡ None → client_tick c ≡ rests c }
{}

/// While a list is open, the value at each index is the last one taken for it.
pub fn every_value()
    ensures { (c : ClientState) → (drone : Stream) → (events : List ListEvent)
        → IsTrue (is_some (after_all (lists c drone).client events).operation)
        → (index : ℕ) → value_at (after_all (lists c drone).client events).values index
        ≡ latest drone index None events }
{}

/// A list ends with exactly the values that the client knows then.
pub fn every_end()
    ensures { (c : ClientState) → (from : Stream) → (m : Message) → (values : List Param)
        → (client_step c from m).end ≡ Some (All_values values)
        → known_values (client_step c from m).client.values ≡ values }
{}

/// These are as many as the ending value counts, and each is the last one taken for its index.
pub fn every_whole_list()
    ensures count { (c : ClientState) → (from : Stream) → (m : ParamValue) → (values : List Param)
        → (client_step c from (Tells m)).end ≡ Some (All_values values)
        → length values ≡ m.param_count }
    ensures values { (c : ClientState) → (drone : Stream) → (events : List ListEvent) → (from : Stream) → (m : Message)
        → (values : List Param)
        → (client_step (after_all (lists c drone).client events) from m).end ≡ Some (All_values values)
        → (index : ℕ) → index < length values
        → slice_get values index ≡ latest drone index None (events ++ Hears from m ∷ []) }
{}
